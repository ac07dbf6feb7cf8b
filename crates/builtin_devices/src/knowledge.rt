//! What evaluating rules asks beyond the event itself, by what it answers.
//!
//! A trait, so that evaluating waits for no builtin, and takes a database in whatever form it comes.
ghost use Rattle.std.specs.Prelude.{◌≡◌, IfOk, option_copied};
ghost use Rattle.trie_nodes.specs.Query.{query, shown};
ghost use Rattle.builtin_devices.specs.Knowledge.{Known};

use crate::outcomes::{BuiltinOutcome, NetNames};
use crate::root_files::RootFile;
use device_core::Event;
use std::alloc::{AllocError, Global};
use text_tables::CowPairs;

/// A hardware database, the builtins of udev that look at the devices of an event, and files of the root.
///
/// Each call fails only if there is no memory for the answer.
pub trait Knowledge {
    /// What is known.
    ghost known: { Self → Known };

    /// The keys and values of the properties for a modalias, sorted by key, byte by byte.
    fn query(&self, alloc: Global, modalias: &[u8]) -> Result<Vec<(&[u8], &[u8])>, AllocError>
        ensures { IfOk result (λ found. shown found.items ≡ query (known self.now).entries modalias.now) };

    /// The outcome of `usb_id`, by whether the property ID_BUS is set before.
    fn usb_id(
        &self,
        alloc: Global,
        event: &Event<'_>,
        is_bus_set: bool,
    ) -> Result<BuiltinOutcome, AllocError>
        ensures { IfOk result (λ outcome. outcome ≡ (known self.now).usb_id event.now is_bus_set) };

    /// The outcome of `path_id`.
    fn path_id(&self, alloc: Global, event: &Event<'_>) -> Result<BuiltinOutcome, AllocError>
        ensures { IfOk result (λ outcome. outcome ≡ (known self.now).path_id event.now) };

    /// The outcome of `input_id`.
    fn input_id(&self, alloc: Global, event: &Event<'_>) -> Result<BuiltinOutcome, AllocError>
        ensures { IfOk result (λ outcome. outcome ≡ (known self.now).input_id event.now) };

    /// The outcome of `net_id`, by the current properties of the event device, and what the database is asked for it.
    fn net_id(
        &self,
        alloc: Global,
        event: &Event<'_>,
        env: &CowPairs<'_>,
    ) -> Result<NetNames, AllocError>
        ensures outcome { IfOk result (λ names. names.outcome ≡ (known self.now).net_id event.now env.now) }
        ensures lookup { IfOk result (λ names. names.lookup ≡ (known self.now).net_lookup event.now env.now) };

    /// The outcome of `net_setup_link`, by the current properties of the event device.
    fn net_setup_link(
        &self,
        alloc: Global,
        event: &Event<'_>,
        env: &CowPairs<'_>,
    ) -> Result<BuiltinOutcome, AllocError>
        ensures { IfOk result (λ outcome. outcome ≡ (known self.now).net_setup_link event.now env.now) };

    /// Returns what was found at a path of the root; `None` if it was not looked at, or what is there can't be read.
    fn file(&self, path: &[u8]) -> Option<&RootFile>
        ensures { option_copied result ≡ (known self.now).file path.now };
}
