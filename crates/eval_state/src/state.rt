//! What is known about an event.
ghost use Rattle.std.specs.Prelude.{◌≡◌};
ghost use Rattle.text_tables.specs.Pairs.{value_of};
ghost use Rattle.eval_state.specs.Start.{blank_state};
ghost use Rattle.eval_state.specs.Texts.{or_empty};

use crate::chain::Chain;
use std::alloc::Global;
use text_bytes::Bytes;
use text_tables::{CowPairs, OwnedTexts};

/// What is known about an event while rules run.
#[derive(Drop)]
pub struct State<'a> {
    /// The event: what happened, the device and its parents.
    pub event: Chain<'a>,
    /// The place in the chain of the device that the last search found, if it found one; the event
    /// device is at 0.
    pub selected: Option<usize>,
    /// What the last program answered; empty if none did.
    pub result: Bytes,
    /// The name that was assigned; for udev it may be empty.
    pub name: Option<Bytes>,
    /// The properties as they are now.
    pub env: CowPairs<'a>,
    /// The links as they are now.
    pub links: OwnedTexts,
    /// The tags as they are now.
    pub tags: OwnedTexts,
}

impl<'a> State<'a> {
    /// Returns the value of a property as it is now, empty if it has none.
    pub fn property(&self, name: &[u8]) -> &[u8]
        ensures { result.now ≡ or_empty (value_of self.now.env name.now) }
    {
        self.env.get(name).unwrap_or(b"")
    }

    /// Forgets all but the event itself.
    pub fn clear(&mut self, alloc: Global)
        ensures { self.new ≡ blank_state self.old.event }
    {
        self.selected = None;
        self.result = Bytes::new(Vec::new(alloc));
        self.name = None;
        self.env.clear();
        self.links.clear();
        self.tags.clear();
    }
}
