//! What is met when files are looked for.
ghost use Rattle.std.specs.Prelude.{◌≡◌, IfOk, option_map};
ghost use Rattle.devdry_folders.specs.Unread.{reason_at, reason_met};

use crate::reasons::Reason;
use std::alloc::{AllocError, Global};
use text_bytes::{Bytes, FileKind};

/// What is met at a name in a folder, or at the path of a named file.
#[derive(Drop)]
pub enum Met {
    /// A file, which was read: all its bytes.
    File(Bytes),
    /// Something whose name does not end like those of the kind; it is not looked at.
    OtherName,
    /// A folder.
    Folder,
    /// Something that can't be read, and why.
    Unread(Reason),
}

impl Met {
    /// Why what is met can't be read, if it can't.
    pub(crate) fn reason(&self) -> Option<&Reason>
        ensures { option_map (λ reason. reason.now) result ≡ reason_met self.now }
    {
        match self {
            Met::Unread(reason) => Some(reason),
            _ => None,
        }
    }
}

/// A name, its path, and what is met there.
#[derive(Drop)]
pub struct Sight {
    /// The name without its folder, as it is in a folder and of an added file; for a named file the path.
    pub name: Bytes,
    /// The path.
    pub path: Bytes,
    /// What is met there.
    pub met: Met,
}

impl Sight {
    /// What is met at a path, under a name.
    pub(crate) fn new(alloc: Global, name: &[u8], path: &str, met: Met) -> Result<Sight, AllocError>
        ensures { IfOk result (λ s. s ≡ record { name = name.now; path = path.now; met = met }) }
    {
        Ok(Sight {
            name: Bytes::copy_of(alloc, name)?,
            path: Bytes::copy_of(alloc, path.as_bytes())?,
            met,
        })
    }
}

/// What is at the path of a folder that is wanted, or of a named file.
#[derive(Drop)]
pub enum Spot {
    /// Nothing, which is not a fault for a folder.
    Absent,
    /// A folder, which was listed.
    Folder,
    /// A file, or what is there instead.
    File,
    /// A folder that can't be listed, or what is there instead, and the reason.
    Unread(Reason),
}

impl Spot {
    /// Why what is at the path of a folder can't be read, if it can't.
    pub(crate) fn reason(&self) -> Option<&Reason>
        ensures { option_map (λ reason. reason.now) result ≡ reason_at self.now }
    {
        match self {
            Spot::Unread(reason) => Some(reason),
            _ => None,
        }
    }
}

/// What is at a path, and what is met in it.
#[derive(Drop)]
pub struct Scan {
    /// What is there.
    pub spot: Spot,
    /// What is met in a folder, sorted by name, or the file alone.
    pub sights: Vec<Sight>,
}

/// A folder or a file that a line asks for, and the outcome of visiting it.
#[derive(Drop)]
pub(crate) struct Visit {
    /// What files there hold.
    pub kind: FileKind,
    /// The place among the folders of the kind; 0 if the line names or adds it.
    pub rank: u8,
    /// Whether the line names it, in place of the folders.
    pub is_named: bool,
    /// Its path.
    pub path: Bytes,
    /// The outcome of the visit.
    pub scan: Scan,
}

/// All that a line asks for, and the outcome of visiting it.
#[derive(Drop)]
pub(crate) struct Survey {
    /// The visits of files and folders, in the order of the visits.
    pub visits: Vec<Visit>,
    /// The index, if the line names one: its path, and what is met there.
    pub index: Option<Sight>,
}
