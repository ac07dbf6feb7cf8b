//! The folders in which `.link` files and their drop-ins are looked for.
ghost use Rattle.std.specs.Prelude.{◌≡◌, ◌++◌, IfOk, OnOk, map};
ghost use Rattle.devdry_links.specs.Places.{drop_in_place, drop_in_places, drop_in_places_of, link_place, link_places, ranks};

use link_files::link_folder;
use std::alloc::{AllocError, Global};
use std::marker::Model;
use text_bytes::{Bytes, SourceFile};

/// A folder in which files are looked for.
#[derive(Drop)]
pub struct LinkPlace {
    rank: u8,
    suffix: &'static str,
    before: Bytes,
    path: String,
}

impl Model for LinkPlace {
    ghost use Rattle.std.specs.Prelude.{string_bytes};
    ghost use Rattle.devdry_links.specs.Places.{LinkPlaceValue};

    ghost Value = { LinkPlaceValue };

    ghost view = { λ p. record { rank = p.rank; suffix = p.suffix.now; before = p.before; path = string_bytes p.path } };
}

impl LinkPlace {
    /// Returns its place among the four folders: of equal names the least counts.
    pub fn rank(&self) -> u8
        ensures { result ≡ self.now.rank }
    {
        self.rank
    }

    /// Returns what the names of its files end in.
    pub fn suffix(&self) -> &str
        ensures { result.now ≡ self.now.suffix }
    {
        self.suffix
    }

    /// Returns what comes before the names of its files: nothing, or the name of the folder of drop-ins with a slash.
    pub fn before(&self) -> &[u8]
        ensures { result.now ≡ self.now.before }
    {
        self.before.as_slice()
    }

    /// Returns its path, with the root.
    pub fn path(&self) -> &str
        ensures { result.now ≡ self.now.path }
    {
        self.path.as_str()
    }
}

/// The folder of `.link` files of a rank, below a root.
fn link_place(alloc: Global, root: &str, rank: u8) -> Result<LinkPlace, AllocError>
    ensures { IfOk result (λ place. place ≡ link_place root.now rank) }
{
    let mut path = String::from_str(alloc, root)?;
    path.push_str(link_folder(rank))?;
    Ok(LinkPlace {
        rank,
        suffix: ".link",
        before: Bytes::new(Vec::new(alloc)),
        path,
    })
}

/// The folder of the drop-ins of a `.link` file, in the folder of a rank.
fn drop_in_place(alloc: Global, root: &str, name: &[u8], rank: u8) -> Result<LinkPlace, AllocError>
    ensures { IfOk result (λ place. place ≡ drop_in_place root.now name.now rank) }
{
    let mut path = String::from_str(alloc, root)?;
    path.push_str(link_folder(rank))?;
    path.push_str("/")?;
    path.push_str(String::from_utf8_lossy(alloc, name)?.as_str())?;
    path.push_str(".d")?;
    let mut before = Vec::from_slice(alloc, name)?;
    before.extend_from_slice(b".d/")?;
    Ok(LinkPlace {
        rank,
        suffix: ".conf",
        before: Bytes::new(before),
        path,
    })
}

/// The folders of `.link` files below a root.
pub(crate) fn link_places(alloc: Global, root: &str) -> Result<Vec<LinkPlace>, AllocError>
    ensures { IfOk result (λ places. places.items ≡ link_places root.now) }
{
    let mut places = Vec::new(alloc);
    places.push(link_place(alloc, root, 0)?)?;
    places.push(link_place(alloc, root, 1)?)?;
    places.push(link_place(alloc, root, 2)?)?;
    places.push(link_place(alloc, root, 3)?)?;
    Ok(places)
}

/// The folders of the drop-ins of a `.link` file with a name.
fn drop_in_places_named(
    alloc: Global,
    root: &str,
    name: &[u8],
) -> Result<Vec<LinkPlace>, AllocError>
    ensures { IfOk result (λ places. places.items ≡ map (drop_in_place root.now name.now) ranks) }
{
    let mut places = Vec::new(alloc);
    places.push(drop_in_place(alloc, root, name, 0)?)?;
    places.push(drop_in_place(alloc, root, name, 1)?)?;
    places.push(drop_in_place(alloc, root, name, 2)?)?;
    places.push(drop_in_place(alloc, root, name, 3)?)?;
    Ok(places)
}

/// Adds the folders of the drop-ins of a file.
fn push_drop_in_places(
    alloc: Global,
    root: &str,
    file: &SourceFile,
    places: &mut Vec<LinkPlace>,
) -> Result<(), AllocError>
    ensures { OnOk result (places.new.items ≡ places.old.items ++ drop_in_places_of root.now file.now) }
{
    if file.bytes.as_slice().is_empty() {
        return Ok(());
    }
    places.append(&mut drop_in_places_named(alloc, root, file.name.as_slice())?)?;
    Ok(())
}

/// The folders of the drop-ins of files, below a root.
pub(crate) fn drop_in_places(
    alloc: Global,
    root: &str,
    files: &[SourceFile],
) -> Result<Vec<LinkPlace>, AllocError>
    ensures { IfOk result (λ places. places.items ≡ drop_in_places root.now files.now) }
{
    let mut places = Vec::new(alloc);
    for file in files {
        push_drop_in_places(alloc, root, file, &mut places)?;
    }
    Ok(places)
}
