//! What the devices of a chain have, as marks: if one is missing, a search finds no device.
//!
//! Rules search for a device with a subsystem, with a driver, or with an attribute of some value. Each of these has
//! a mark, a number, and two of them may have the same one. So a mark that is there says nothing; but if it is not
//! there, no device of the chain has what it stands for.
ghost use Rattle.std.specs.Prelude.{◌≡◌, ◌<◌, fold, slice_get};
ghost use Rattle.eval_core.specs.Marks.{driver, is_lacking, mark, mark_count, marks, none_set, subsystem, with_attribute, with_device, with_mark};

use crate::sketches::sketch;
use device_core::{Device, Event};
use std::marker::Model;
use text_bytes::trimmed;
use text_tables::Pairs;

/// How many marks there are.
const MARK_COUNT: usize = 2048;

/// The number for subsystems; an attribute has the sketch of its name.
pub(crate) const SUBSYSTEM: u64 = 1;

/// The number for drivers.
pub(crate) const DRIVER: u64 = 2;

/// The mark of a thing with a value, each given as a number.
#[tactic(auto, unfolding(crate::specs::Marks::mark))]
pub(crate) fn mark(thing: u64, value: u64) -> usize
    ensures value { result ≡ mark thing value }
    ensures within { result < mark_count }
{
    let all = MARK_COUNT as u64;
    ((thing % all * 31 + value % all) % all) as usize
}

/// Marks, each of which is set or not.
#[derive(Drop)]
pub(crate) struct MarkSet {
    set: [bool; MARK_COUNT],
}

impl Model for MarkSet {
    ghost use Rattle.std.specs.Prelude.{List, Bool};

    ghost Value = { List Bool };

    ghost view = { λ m. m.set };
}

impl MarkSet {
    /// Marks, none of which is set.
    fn none() -> MarkSet
        ensures { result ≡ none_set }
    {
        MarkSet {
            set: [false; MARK_COUNT],
        }
    }

    /// Sets a mark.
    fn add(&mut self, mark: usize)
        requires { mark < mark_count }
        ensures { self.new ≡ with_mark self.old mark }
    {
        self.set[mark] = true;
    }

    /// Sets the mark of each of these attributes.
    fn add_attributes(&mut self, attributes: &Pairs<'_>)
        ensures { self.new ≡ fold with_attribute self.old attributes.now }
    {
        for (name, value) in attributes.as_map().iter() {
            self.add(mark(sketch(name), sketch(trimmed(value))));
        }
    }

    /// Sets the marks of what a device has.
    fn add_device(&mut self, device: &Device<'_>)
        ensures { self.new ≡ with_device self.old device.now }
    {
        self.add(mark(SUBSYSTEM, sketch(device.subsystem().unwrap_or(b""))));
        self.add(mark(DRIVER, sketch(device.driver().unwrap_or(b""))));
        self.add_attributes(device.attrs());
    }

    /// Whether a mark is not set.
    pub(crate) fn lacks(&self, mark: usize) -> bool
        ensures { result ≡ is_lacking (slice_get self.now mark) }
    {
        match self.set.get(mark) {
            None => false,
            Some(set) => !*set,
        }
    }
}

/// The marks of what the devices of an event have.
pub(crate) fn marks(event: &Event<'_>) -> MarkSet
    ensures { result ≡ marks event.now }
{
    let mut found = MarkSet::none();
    found.add_device(event.device());
    for parent in event.parents() {
        found.add_device(parent);
    }
    found
}
