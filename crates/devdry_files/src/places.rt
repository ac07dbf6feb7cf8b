//! What is to be read: the files that are named, folders, and an index.
ghost use Rattle.std.specs.Prelude.{◌≡◌, ◌++◌, ◌∷◌, IfOk, string_bytes};
ghost use Rattle.text_bytes.specs.Names.{slash};

use std::alloc::{AllocError, Global};
use text_bytes::FileKind;

/// A folder whose files are to be read.
#[derive(Drop)]
pub struct Folder {
    /// What its files hold.
    pub kind: FileKind,
    /// Its place among the folders of its kind: of equal names the least wins.
    pub rank: u8,
    /// Its path, with what the line puts before it.
    pub path: String,
}

/// What a line asks for.
#[derive(Drop)]
pub struct Wanted<'b, 'a> {
    /// What the named files hold.
    pub kind: FileKind,
    /// The named files, in the order given.
    pub files: &'b [&'a str],
    /// The files that stand among those of the folders as if they were in the first of these, in the order given.
    pub added: &'b [&'a str],
    /// The folders, in the order in which they are read.
    pub folders: Vec<Folder>,
    /// The root that the folders are in. Their paths begin with it.
    pub root: &'a str,
    /// The path of the index, if one is named. It is read last.
    pub index: Option<&'a str>,
}

/// The path of a name in the folder at a path.
pub(crate) fn path_in(alloc: Global, folder: &str, name: &str) -> Result<String, AllocError>
    ensures { IfOk result (λ path. string_bytes path ≡ folder.now ++ slash ∷ name.now) }
{
    let mut path = String::from_str(alloc, folder)?;
    path.push_str("/")?;
    path.push_str(name)?;
    Ok(path)
}
