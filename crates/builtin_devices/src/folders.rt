//! The devices that a block describes by their paths, each with the files in its folder.
ghost use Rattle.std.specs.Prelude.{◌≡◌, ◌∷◌, ◌++◌, ◌≤◌, ◌+◌, [], Some, true, IfOk, OnOk, filter_map, length, map};
ghost use Rattle.std.specs.Prelude.{option_map, nat_eq, take, drop, false, ℕ, ◌||◌, slice_index_or, if◌then◌else◌};
ghost use Rattle.std.specs.List.{ends_with};
ghost use Rattle.text_bytes.specs.Names.{slash};
ghost use Rattle.text_bytes.specs.Texts.{begins_with};
ghost use Rattle.text_bytes.specs.Text.{Text};
ghost use Rattle.text_tables.specs.Texts.{is_among, same_text};
ghost use Rattle.text_tables.specs.Pairs.{with_values};
ghost use Rattle.builtin_devices.specs.Files.{described_devices, files_below, subsystem_file};
ghost use Rattle.builtin_devices.specs.Folders.{described_path, described_paths, device_in, files_in, with_file, with_files};

use device_core::{Device, Event, Pairs};
use indexmap::IndexMap;
use std::alloc::{AllocError, Global};
use text_bytes::begins_with;

/// What follows the path of a device in the name of the file that gives its subsystem.
const SUBSYSTEM_FILE: &[u8] = b"/subsystem";

/// The files in folders: what follows the folder's path in that of each, and what the file says.
type Folders<'a> = IndexMap<&'a [u8], Vec<(&'a [u8], &'a [u8])>>;

/// The path of the device whose subsystem the file with a path gives.
fn described_path(path: &[u8]) -> Option<&[u8]>
    ensures { option_map (λ t. t.now) result ≡ described_path path.now }
{
    if !path.ends_with(SUBSYSTEM_FILE) {
        return None;
    }
    Some(path.split_at(path.len() - SUBSYSTEM_FILE.len()).0)
}

/// Marks the length of a path.
fn mark_length(path: &[u8], lengths: &mut Vec<bool>) -> Result<(), AllocError>
    ensures { OnOk result ((place : ℕ) → slice_index_or lengths.new.items place false ≡ (nat_eq place (length path.now)
        || slice_index_or lengths.old.items place false)) }
{
    let place = path.len();
    if lengths.len() <= place {
        lengths.resize(place + 1, false)?;
    }
    lengths[place] = true;
    Ok(())
}

/// Marks for the lengths of the paths of the devices that a block describes.
fn described_lengths(alloc: Global, event: &Event<'_>) -> Result<Vec<bool>, AllocError>
    ensures { IfOk result (λ lengths. (folder : Text) → is_among (described_paths event.now.constants) folder ≡ true
        → slice_index_or lengths.items (length folder) false ≡ true) }
{
    let mut lengths = Vec::new(alloc);
    for (path, _) in event.constants().as_map().iter() {
        if let Some(folder) = described_path(path) {
            mark_length(folder, &mut lengths)?;
        }
    }
    Ok(lengths)
}

/// The folders of the devices that a block describes, with no files yet.
fn empty_folders<'a>(alloc: Global, event: &Event<'a>) -> Result<Folders<'a>, AllocError>
    ensures { IfOk result (λ folders. (folder : Text) → is_among (described_paths event.now.constants) folder ≡ true → files_in folders folder ≡ Some []) }
{
    let mut folders = IndexMap::new(alloc);
    for (path, _) in event.constants().as_map().iter() {
        if let Some(folder) = described_path(path) {
            folders.insert(folder, Vec::new(alloc))?;
        }
    }
    Ok(folders)
}

/// Adds a file to a folder, if that is among the folders.
fn add_to_folder<'a>(
    folder: &[u8],
    name: &'a [u8],
    text: &'a [u8],
    folders: &mut Folders<'a>,
) -> Result<(), AllocError>
    ensures { OnOk result ((other : Text)
        → files_in folders.new other
        ≡ (if same_text other folder.now then with_file (name.now, text.now) (files_in folders.old other) else files_in folders.old other)) }
{
    if let Some(files) = folders.get_mut(folder) {
        files.push((name, text))?;
    }
    Ok(())
}

/// Adds a file to each folder that it is below, among those whose paths are of marked lengths.
fn add_file<'a>(
    lengths: &[bool],
    path: &'a [u8],
    text: &'a [u8],
    folders: &mut Folders<'a>,
) -> Result<(), AllocError>
    ensures { OnOk result ((folder : Text) → slice_index_or lengths.now (length folder) false ≡ true
        → files_in folders.new folder ≡ with_files folder ((path.now, text.now) ∷ []) (files_in folders.old folder)) }
{
    for place in 0..path.len().min(lengths.len()) {
        let (folder, following) = path.split_at(place);
        if lengths[place] && begins_with(b'/', following) {
            add_to_folder(folder, following.split_at(1).1, text, folders)?;
        }
    }
    Ok(())
}

/// The folders of the devices that a block describes, with the files below each in the order of the block, where
/// the lengths of their paths are marked. A path is looked for among them only at such a length: a file may be below
/// very many folders.
fn described_folders<'a>(
    alloc: Global,
    event: &Event<'a>,
    lengths: &[bool],
) -> Result<Folders<'a>, AllocError>
    ensures { IfOk result (λ folders. (folder : Text) → is_among (described_paths event.now.constants) folder ≡ true
        → slice_index_or lengths.now (length folder) false ≡ true → files_in folders folder ≡ Some (files_below event.now folder)) }
{
    let mut folders = empty_folders(alloc, event)?;
    for (path, text) in event.constants().as_map().iter() {
        add_file(lengths, path, text, &mut folders)?;
    }
    Ok(folders)
}

/// Files as the attributes of a device.
fn attributes_of<'a>(alloc: Global, files: &[(&'a [u8], &'a [u8])]) -> Result<Pairs<'a>, AllocError>
    ensures { IfOk result (λ attrs. attrs ≡ with_values [] (map (λ file. (file.0.now, file.1.now)) files.now)) }
{
    let mut attrs = Pairs::new(alloc);
    for (name, text) in files {
        attrs.add(name, text)?;
    }
    Ok(attrs)
}

/// The device whose subsystem a file gives, with the files in its folder.
fn device_in<'a>(
    alloc: Global,
    folders: &Folders<'a>,
    path: &'a [u8],
    text: &'a [u8],
) -> Result<Option<Device<'a>>, AllocError>
    ensures { IfOk result (λ device. device ≡ device_in (files_in folders.now) (path.now, text.now)) }
{
    let Some(folder) = described_path(path) else {
        return Ok(None);
    };
    let Some(files) = folders.get(folder) else {
        return Ok(None);
    };
    let attrs = attributes_of(alloc, files)?;
    Ok(Some(Device::described(alloc, folder, text, attrs)))
}

/// The devices that a block describes, with the files in their folders.
fn devices_in<'a>(
    alloc: Global,
    event: &Event<'a>,
    folders: &Folders<'a>,
) -> Result<Vec<Device<'a>>, AllocError>
    ensures { IfOk result (λ devices. devices.items ≡ filter_map (device_in (files_in folders.now)) event.now.constants) }
{
    let mut devices = Vec::new(alloc);
    for (path, text) in event.constants().as_map().iter() {
        if let Some(device) = device_in(alloc, folders, path, text)? {
            devices.push(device)?;
        }
    }
    Ok(devices)
}

/// The devices that a block describes by paths, in its order.
pub(crate) fn described_devices<'a>(
    alloc: Global,
    event: &Event<'a>,
) -> Result<Vec<Device<'a>>, AllocError>
    ensures { IfOk result (λ devices. devices.items ≡ described_devices event.now) }
{
    let lengths = described_lengths(alloc, event)?;
    if lengths.is_empty() {
        return Ok(Vec::new(alloc));
    }
    let folders = described_folders(alloc, event, &lengths)?;
    devices_in(alloc, event, &folders)
}
