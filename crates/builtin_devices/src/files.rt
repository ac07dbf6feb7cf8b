//! Files that a block describes by constants.
ghost use Rattle.std.specs.Prelude.{◌≡◌, ◌∷◌, ◌++◌, ◌≤◌, ◌+◌, IfOk, filter_map, length, map, option_map, nat_eq, drop};
ghost use Rattle.std.specs.List.{starts_with};
ghost use Rattle.text_bytes.specs.Names.{slash};
ghost use Rattle.builtin_devices.specs.Files.{file_at, file_below, files_below, name_below};

use device_core::Event;
use std::alloc::{AllocError, Global};

/// What the file with a path below `/sys` says, if a constant of the block gives it; for a link, the path to which
/// it leads.
pub fn file_at<'a>(event: &Event<'a>, path: &[u8]) -> Option<&'a [u8]>
    ensures { option_map (λ t. t.now) result ≡ file_at event.now path.now }
{
    event.constants().get(path)
}

/// What is in a path after that of a folder and a slash.
#[tactic(auto, unfolding(crate::specs::Files::name_below))]
fn name_below<'a>(folder: &[u8], path: &'a [u8]) -> Option<&'a [u8]>
    ensures { option_map (λ t. t.now) result ≡ name_below folder.now path.now }
{
    if !path.starts_with(folder) {
        return None;
    }
    match path.split_at(folder.len()).1 {
        [b'/', name @ ..] => Some(name),
        _ => None,
    }
}

/// The files below a folder, by what follows its path, in the order of the block.
pub fn files_below<'a>(
    alloc: Global,
    event: &Event<'a>,
    folder: &[u8],
) -> Result<Vec<(&'a [u8], &'a [u8])>, AllocError>
    ensures { IfOk result (λ files. map (λ file. (file.0.now, file.1.now)) files.items ≡ files_below event.now folder.now) }
{
    let mut files = Vec::new(alloc);
    for (path, text) in event.constants().as_map().iter() {
        if let Some(name) = name_below(folder, path) {
            files.push((name, *text))?;
        }
    }
    Ok(files)
}
