//! Files of the root, by their paths.
ghost use Rattle.std.specs.Prelude.{◌≡◌, [], OnErr, OnOk, option_copied};
ghost use Rattle.text_tables.specs.Pairs.{named, value_of, with_value};

use indexmap::IndexMap;
use std::alloc::{AllocError, Global};
use std::marker::Model;
use text_bytes::Bytes;

/// What was found at a path of the root.
#[derive(Drop)]
pub enum RootFile {
    /// 1: a file with these bytes.
    Read(Bytes),
    /// 2: nothing.
    Absent,
}

/// What was found at paths of the root, each path once, in the order in which they came. A path that is not there was
/// not looked at, or what is there can't be read.
#[derive(Drop)]
pub struct RootFiles {
    held: IndexMap<Vec<u8>, RootFile>,
}

impl Model for RootFiles {
    ghost use Rattle.std.specs.Prelude.{List, map};
    ghost use Rattle.text_bytes.specs.Text.{Text};
    ghost use Rattle.builtin_devices.specs.declared.root_files.RootFile.{RootFile};

    ghost Value = { List (Text × RootFile) };

    ghost view = { λ f. map (λ e. (e.0.items, e.1)) f.held.entries };
}

impl RootFiles {
    /// No paths.
    pub fn new(alloc: Global) -> RootFiles
        ensures { result ≡ [] }
    {
        RootFiles {
            held: IndexMap::new(alloc),
        }
    }

    /// Whether a path is there.
    pub fn contains(&self, path: &[u8]) -> bool
        ensures { result ≡ named self.now path.now }
    {
        self.held.contains_key(path)
    }

    /// Returns what was found at a path.
    pub fn get(&self, path: &[u8]) -> Option<&RootFile>
        ensures { option_copied result ≡ value_of self.now path.now }
    {
        self.held.get(path)
    }

    /// Adds a path with what was found there; a path that is there takes it in its place. If memory runs out, all
    /// stays as it is.
    pub fn add(&mut self, alloc: Global, path: &[u8], found: RootFile) -> Result<(), AllocError>
        ensures files { OnOk result (self.new ≡ with_value self.old path.now found) }
        ensures refused { OnErr result (self.new ≡ self.old) }
    {
        let path = Vec::from_slice(alloc, path)?;
        self.held.insert(path, found)?;
        Ok(())
    }
}
