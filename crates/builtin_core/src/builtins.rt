//! The builtins over a database and `.link` files, with files of the root.
ghost use Rattle.std.specs.Prelude.{◌≡◌};
ghost use Rattle.builtin_core.specs.Builtins.{known_by};

use crate::needs::{input_needs, net_needs, path_needs, usb_needs};
use builtin_devices::{BuiltinOutcome, Knowledge, NetNames, RootFile, RootFiles};
use builtin_input::input_id;
use builtin_link::net_setup_link;
use builtin_net::net_id;
use builtin_path::path_id;
use builtin_usb::usb_id;
use device_core::Event;
use link_files::LinkFile;
use std::alloc::{AllocError, Global};
use std::marker::Model;
use text_tables::CowPairs;
use trie_nodes::Lookup;

/// The builtins of udev over a hardware database and `.link` files, and what was found at paths of the root.
#[derive(Drop)]
pub struct Builtins<'l, L: Lookup> {
    database: L,
    links: &'l [LinkFile],
    files: &'l RootFiles,
}

impl<'l, L: Lookup> Model for Builtins<'l, L> {
    ghost use Rattle.builtin_core.specs.Builtins.{Held};

    ghost Value = { Held };

    ghost view = { λ b. record { links = b.links.now; files = b.files.now; entries = L.entries b.database } };
}

impl<'l, L: Lookup> Builtins<'l, L> {
    /// The builtins over this database, with the `.link` files by which interfaces are named, and what was found at
    /// paths of the root.
    pub fn new(database: L, links: &'l [LinkFile], files: &'l RootFiles) -> Builtins<'l, L>
        ensures { result ≡ record { links = links.now; files = files.now; entries = L.entries database } }
    {
        Builtins {
            database,
            links,
            files,
        }
    }
}

impl<'l, L: Lookup> Knowledge for Builtins<'l, L> {
    ghost known = { known_by };

    fn query(&self, alloc: Global, modalias: &[u8]) -> Result<Vec<(&[u8], &[u8])>, AllocError> {
        self.database.query(alloc, modalias)
    }

    fn usb_id(
        &self,
        alloc: Global,
        event: &Event<'_>,
        is_bus_set: bool,
    ) -> Result<BuiltinOutcome, AllocError> {
        let outcome = usb_id(alloc, event, is_bus_set)?;
        let needs = usb_needs(alloc, event)?;
        outcome.needing_first(alloc, needs)
    }

    fn path_id(&self, alloc: Global, event: &Event<'_>) -> Result<BuiltinOutcome, AllocError> {
        let outcome = path_id(alloc, event)?;
        let needs = path_needs(alloc, event)?;
        outcome.needing_first(alloc, needs)
    }

    fn input_id(&self, alloc: Global, event: &Event<'_>) -> Result<BuiltinOutcome, AllocError> {
        let outcome = input_id(alloc, event)?;
        let needs = input_needs(alloc, event)?;
        outcome.needing_first(alloc, needs)
    }

    fn net_id(
        &self,
        alloc: Global,
        event: &Event<'_>,
        env: &CowPairs<'_>,
    ) -> Result<NetNames, AllocError> {
        let NetNames { outcome, lookup } = net_id(alloc, event, env)?;
        let needs = net_needs(alloc, event)?;
        let outcome = outcome.needing_first(alloc, needs)?;
        Ok(NetNames { outcome, lookup })
    }

    fn net_setup_link(
        &self,
        alloc: Global,
        event: &Event<'_>,
        env: &CowPairs<'_>,
    ) -> Result<BuiltinOutcome, AllocError> {
        net_setup_link(alloc, self.links, event, env)
    }

    fn file(&self, path: &[u8]) -> Option<&RootFile> {
        self.files.get(path)
    }
}
