//! Names with values that are borrowed until they are set: properties that rules set and remove.
//!
//! Most properties of a device stay as they are, so that a copy of each would cost more than all that rules do with it.
ghost use Rattle.std.specs.Prelude.{◌≡◌, [], length, option_map, map, OnOk, OnErr};
ghost use Rattle.std.specs.Cow.{cow_slice_items};
ghost use Rattle.text_tables.specs.Heads.{pair_at};
ghost use Rattle.text_tables.specs.NameFlags.{none_set, with_names};
ghost use Rattle.text_tables.specs.Texts.{AreOnce};
ghost use Rattle.text_tables.specs.Pairs.{names, value_of, with_value, with_values, without_name, SetsFirst};

use crate::name_flags::NameFlags;
use crate::pairs::Pairs;
use indexmap::IndexMap;
use std::alloc::{AllocError, Global};
use std::borrow::CowSlice;
use std::marker::Model;
use text_bytes::Bytes;

/// Names with their values, borrowed or owned, in the order in which the names came, each name once.
#[derive(Drop)]
pub struct CowPairs<'a> {
    held: IndexMap<CowSlice<'a, u8>, CowSlice<'a, u8>>,
    /// The flag of each name that is held is set.
    flags: NameFlags,
}

impl<'a> Model for CowPairs<'a> {
    ghost use Rattle.std.specs.Prelude.{List, map};
    ghost use Rattle.std.specs.Cow.{cow_slice_items};
    ghost use Rattle.text_bytes.specs.Text.{Text};
    ghost use Rattle.text_tables.specs.NameFlags.{IsFlagged};

    ghost Value = { List (Text × Text) };

    ghost view = { λ p. map (λ e. (cow_slice_items e.0, cow_slice_items e.1)) p.held.entries };

    ghost invariant = { λ p. IsFlagged p.flags (map (λ e. (cow_slice_items e.0, cow_slice_items e.1)) p.held.entries) };
}

/// Flags of which those of the names of a map are set.
fn flags_of(held: &IndexMap<CowSlice<'_, u8>, CowSlice<'_, u8>>) -> NameFlags
    ensures { result ≡ with_names none_set (names (map (λ e. (cow_slice_items e.0, cow_slice_items e.1)) held.now.entries)) }
{
    let mut flags = NameFlags::none();
    for name in held.keys() {
        flags.mark(name.as_slice());
    }
    flags
}

impl<'a> CowPairs<'a> {
    /// No names.
    pub fn new(alloc: Global) -> CowPairs<'a>
        ensures { result ≡ [] }
    {
        CowPairs {
            held: IndexMap::new(alloc),
            flags: NameFlags::none(),
        }
    }

    /// The names and values of a map, without a copy.
    pub fn from_map(held: IndexMap<CowSlice<'a, u8>, CowSlice<'a, u8>>) -> CowPairs<'a>
        ensures { result ≡ map (λ e. (cow_slice_items e.0, cow_slice_items e.1)) held.entry.entries }
    {
        let flags = flags_of(&held);
        CowPairs { held, flags }
    }

    /// Returns the map.
    pub fn into_map(self) -> IndexMap<CowSlice<'a, u8>, CowSlice<'a, u8>>
        ensures { map (λ e. (cow_slice_items e.0, cow_slice_items e.1)) result.entries ≡ self.entry }
    {
        let CowPairs { held, .. } = self;
        held
    }

    /// How many names there are; none is there twice.
    pub fn len(&self) -> usize
        ensures count { result ≡ length self.now }
        ensures once { AreOnce (names self.now) }
    {
        self.held.len()
    }

    /// Returns the map, whose order is that of the names.
    pub fn as_map(&self) -> &IndexMap<CowSlice<'a, u8>, CowSlice<'a, u8>>
        ensures { map (λ e. (cow_slice_items e.0, cow_slice_items e.1)) result.now.entries ≡ self.now }
    {
        &self.held
    }

    /// Returns the value of a name.
    pub fn get(&self, name: &[u8]) -> Option<&[u8]>
        ensures { option_map (λ v. v.now) result ≡ value_of self.now name.now }
    {
        if self.flags.lacks(name) {
            return None;
        }
        self.held.get(name).map(CowSlice::as_slice)
    }

    /// The name at a place with its value, both empty if there are fewer names.
    pub(crate) fn pair_at(&self, place: usize) -> (&[u8], &[u8])
        ensures { (result.0.now, result.1.now) ≡ pair_at self.now place }
    {
        match self.held.get_index(place) {
            Some((name, value)) => (name.as_slice(), value.as_slice()),
            None => (b"", b""),
        }
    }

    /// Gives a name a copy of a value: a name that is there takes it in its place, another one is
    /// added at the end. If memory runs out, the names and values stay as they are.
    pub fn set(&mut self, alloc: Global, name: &[u8], value: &[u8]) -> Result<(), AllocError>
        ensures pairs { OnOk result (self.new ≡ with_value self.old name.now value.now) }
        ensures refused { OnErr result (self.new ≡ self.old) }
    {
        let value = Bytes::copy_of(alloc, value)?;
        self.put(alloc, name, value)
    }

    /// Gives a name a value as `set` does, without a copy of the value.
    pub fn put(&mut self, alloc: Global, name: &[u8], value: Bytes) -> Result<(), AllocError>
        ensures pairs { OnOk result (self.new ≡ with_value self.old name.now value) }
        ensures refused { OnErr result (self.new ≡ self.old) }
    {
        let name = Vec::from_slice(alloc, name)?;
        self.flags.mark(name.as_slice());
        self.held
            .insert(CowSlice::Owned(name), CowSlice::Owned(value.into_vec()))?;
        Ok(())
    }

    /// Gives a name a value as `set` does, both borrowed.
    pub fn lend(&mut self, name: &'a [u8], value: &'a [u8]) -> Result<(), AllocError>
        ensures pairs { OnOk result (self.new ≡ with_value self.old name.now value.now) }
        ensures refused { OnErr result (self.new ≡ self.old) }
    {
        self.flags.mark(name);
        self.held
            .insert(CowSlice::Borrowed(name), CowSlice::Borrowed(value))?;
        Ok(())
    }

    /// Makes room for so many more names, so that the table does not grow step by step.
    fn reserve(&mut self, more: usize) -> Result<(), AllocError>
        ensures { self.new ≡ self.old }
    {
        self.held.reserve(more)
    }

    /// Sets each of these names, in their order, without a copy. If memory runs out, the first so many are set,
    /// perhaps none, and the others are not.
    pub fn lend_all(&mut self, pairs: &Pairs<'a>) -> Result<(), AllocError>
        ensures pairs { OnOk result (self.new ≡ with_values self.old pairs.now) }
        ensures refused { OnErr result (SetsFirst self.old pairs.now self.new) }
    {
        self.reserve(pairs.len())?;
        for (name, value) in pairs.as_map().iter() {
            self.lend(name, value)?;
        }
        Ok(())
    }

    /// Takes a name and its value away; the others keep their order.
    pub fn remove(&mut self, name: &[u8])
        ensures { self.new ≡ without_name self.old name.now }
    {
        self.held.shift_remove(name);
    }

    /// Takes all names away.
    pub fn clear(&mut self)
        ensures { self.new ≡ [] }
    {
        self.held.clear();
        self.flags = NameFlags::none();
    }
}
