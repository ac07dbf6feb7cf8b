//! The `.link` files, in the order in which they are looked at.
ghost use Rattle.std.specs.Prelude.{◌≡◌, ◌++◌, ◌<◌, IfOk, OnOk, filter_map, map};
ghost use Rattle.std.specs.List.{join_with_byte};
ghost use Rattle.text_bytes.specs.Names.{colon};
ghost use Rattle.link_files.specs.Files.{is_masked, link_file, link_files, link_folder, listed_path, path_of, small_digit, with_drop_ins};

use crate::drop_ins::DropIns;
use crate::settings::{Reading, Setting, take_file};
use std::alloc::{AllocError, Global};
use std::marker::Model;
use text_bytes::{Bytes, SourceFile, begins_with, order_files};

/// A `.link` file with what it and its drop-ins set.
#[derive(Drop)]
pub struct LinkFile {
    path: Bytes,
    drop_ins: Bytes,
    is_sound: bool,
    settings: Vec<Setting>,
}

impl Model for LinkFile {
    ghost use Rattle.link_files.specs.Files.{LinkFileValue};

    ghost Value = { LinkFileValue };

    ghost view = { λ f. record { path = f.path; drop_ins = f.drop_ins; is_sound = f.is_sound; settings = f.settings.items } };
}

impl LinkFile {
    /// Returns its path.
    pub fn path(&self) -> &[u8]
        ensures { result.now ≡ self.now.path }
    {
        self.path.as_slice()
    }

    /// Returns the paths of its drop-ins, with `:` in between.
    pub fn drop_ins(&self) -> &[u8]
        ensures { result.now ≡ self.now.drop_ins }
    {
        self.drop_ins.as_slice()
    }

    /// Whether each line of it and its drop-ins could be read. Otherwise they set nothing: a line is not UTF-8, or begins
    /// with `[` and is not the name of a section.
    pub fn is_sound(&self) -> bool
        ensures { result ≡ self.now.is_sound }
    {
        self.is_sound
    }

    /// Returns what it and its drop-ins set, in order.
    pub fn settings(&self) -> &[Setting]
        ensures { result.now ≡ self.now.settings }
    {
        &self.settings
    }
}

/// The folder of `.link` files at a rank, as systemd.link(5) names it; all ranks from 3 on are of one folder.
pub fn link_folder(rank: u8) -> &'static str
    ensures { result.now ≡ link_folder rank }
{
    match rank {
        0 => "/etc/systemd/network",
        1 => "/run/systemd/network",
        2 => "/usr/local/lib/systemd/network",
        _ => "/usr/lib/systemd/network",
    }
}

/// Where a file is.
pub fn path_of(alloc: Global, file: &SourceFile) -> Result<Vec<u8>, AllocError>
    ensures { IfOk result (λ path. path.items ≡ path_of file.now) }
{
    let mut path = Vec::from_slice(alloc, link_folder(file.rank).as_bytes())?;
    path.push(b'/')?;
    path.extend_from_slice(file.name.as_slice())?;
    Ok(path)
}

/// A digit below 16, in small letters.
fn small_digit(number: u8) -> u8
    requires { number < 16 }
    ensures { result ≡ small_digit number }
{
    if number < 10 {
        b'0' + number
    } else {
        b'a' - 10 + number
    }
}

/// Adds the path of a drop-in among others.
#[tactic(auto, unfolding(crate::specs::Files::listed_path))]
fn list_path(alloc: Global, file: &SourceFile, text: &mut Vec<u8>) -> Result<(), AllocError>
    ensures { OnOk result (text.new.items ≡ text.old.items ++ listed_path file.now) }
{
    for byte in &path_of(alloc, file)? {
        if *byte < 0x20 || *byte > 0x7E || *byte == b':' || *byte == b'\\' {
            text.extend_from_slice(&[
                b'\\',
                b'x',
                small_digit(*byte / 16),
                small_digit(*byte % 16),
            ])?;
        } else {
            text.push(*byte)?;
        }
    }
    Ok(())
}

/// The paths of drop-ins, with `:` in between.
fn listed(alloc: Global, files: &[&SourceFile]) -> Result<Bytes, AllocError>
    ensures { IfOk result (λ text. text ≡ join_with_byte colon (map listed_path (map (λ f. f.now) files.now))) }
{
    let Some((first, others)) = files.split_first() else {
        return Ok(Bytes::new(Vec::new(alloc)));
    };
    let mut text = Vec::new(alloc);
    list_path(alloc, first, &mut text)?;
    for file in others {
        text.push(b':')?;
        list_path(alloc, file, &mut text)?;
    }
    Ok(Bytes::new(text))
}

/// Whether a file is masked, or is not read for its name.
pub fn is_masked(file: &SourceFile) -> bool
    ensures { result ≡ is_masked file.now }
{
    file.bytes.as_slice().is_empty() || begins_with(b'.', file.name.as_slice())
}

/// A file and its drop-ins: what it sets with them, and whether each line of all these could be read.
pub fn with_drop_ins(
    alloc: Global,
    file: &SourceFile,
    drop_ins: &[&SourceFile],
) -> Result<LinkFile, AllocError>
    ensures { IfOk result (λ link. link ≡ with_drop_ins file.now (map (λ f. f.now) drop_ins.now)) }
{
    let path = Bytes::new(path_of(alloc, file)?);
    let names = listed(alloc, drop_ins)?;
    let mut reading = Reading {
        is_sound: true,
        section: Bytes::new(Vec::new(alloc)),
        settings: Vec::new(alloc),
    };
    take_file(alloc, &mut reading, file.bytes.as_slice())?;
    for file in drop_ins {
        take_file(alloc, &mut reading, file.bytes.as_slice())?;
    }
    if !reading.is_sound {
        reading.settings.clear();
    }
    Ok(LinkFile {
        path,
        drop_ins: names,
        is_sound: reading.is_sound,
        settings: reading.settings,
    })
}

/// A file with its drop-ins among some files.
#[tactic(auto, unfolding(crate::specs::Files::link_file))]
fn link_file(
    alloc: Global,
    drop_ins: &DropIns<'_>,
    file: &SourceFile,
) -> Result<Option<LinkFile>, AllocError>
    ensures { IfOk result (λ link. link ≡ link_file drop_ins.now file.now) }
{
    if is_masked(file) {
        return Ok(None);
    }
    Ok(Some(with_drop_ins(alloc, file, drop_ins.of_file(file))?))
}

/// Those of these files that count, each with its drop-ins.
fn with_all_drop_ins(
    alloc: Global,
    links: &[SourceFile],
    drop_ins: &DropIns<'_>,
) -> Result<Vec<LinkFile>, AllocError>
    ensures { IfOk result (λ files. files.items ≡ filter_map (link_file drop_ins.now) links.now) }
{
    let mut files = Vec::new(alloc);
    for file in links {
        if let Some(link) = link_file(alloc, drop_ins, file)? {
            files.push(link)?;
        }
    }
    Ok(files)
}

/// The `.link` files that count, by name, as systemd.link(5) says: of each name the one of the least rank, unless it
/// has no bytes; with its drop-ins, of which those of one name are the one of the least rank, too.
///
/// A drop-in is named by its folder and itself, `NAME.link.d/NAME.conf`. The rank says in which folder a file is:
/// `/etc/systemd/network`, `/run/systemd/network`, `/usr/local/lib/systemd/network`, `/usr/lib/systemd/network`. A
/// file sets nothing if one of its lines, or of its drop-ins, is not UTF-8, or begins with `[` and is not the name of a
/// section. The kinds of the files are not looked at.
///
/// Fails if memory runs out.
#[tactic(auto, unfolding(crate::specs::Files::link_files))]
pub fn read_links(
    alloc: Global,
    links: Vec<SourceFile>,
    drop_ins: Vec<SourceFile>,
) -> Result<Vec<LinkFile>, AllocError>
    ensures { IfOk result (λ files. files.items ≡ link_files links.items drop_ins.items) }
{
    let links = order_files(alloc, links, b".link")?;
    let drop_ins = order_files(alloc, drop_ins, b".conf")?;
    with_all_drop_ins(alloc, &links, &DropIns::of(alloc, &drop_ins)?)
}
