//! Borrowed names with values of any kind.
ghost use Rattle.std.specs.Prelude.{◌≡◌, [], length, not, option_copied, map, IfOk, OnOk, OnErr};
ghost use Rattle.text_tables.specs.Texts.{AreOnce};
ghost use Rattle.text_tables.specs.Pairs.{names, named, value_of, with_value};

use indexmap::IndexMap;
use std::alloc::{AllocError, Global};
use std::marker::Model;

/// Borrowed names with values of one kind, in the order in which the names came, each name once.
#[derive(Drop)]
pub struct Table<'a, V> {
    held: IndexMap<&'a [u8], V>,
}

impl<'a, V> Model for Table<'a, V> {
    ghost use Rattle.std.specs.Prelude.{List, map};
    ghost use Rattle.text_bytes.specs.Text.{Text};

    ghost Value = { List (Text × V) };

    ghost view = { λ t. map (λ e. (e.0.now, e.1)) t.held.entries };
}

impl<'a, V: Drop> Table<'a, V> {
    /// No names.
    pub fn new(alloc: Global) -> Table<'a, V>
        ensures { result ≡ [] }
    {
        Table {
            held: IndexMap::new(alloc),
        }
    }

    /// The names and values of a map, without a copy.
    pub fn from_map(held: IndexMap<&'a [u8], V>) -> Table<'a, V>
        ensures { result ≡ map (λ e. (e.0.now, e.1)) held.entry.entries }
    {
        Table { held }
    }

    /// Returns the map.
    pub fn into_map(self) -> IndexMap<&'a [u8], V>
        ensures { map (λ e. (e.0.now, e.1)) result.entries ≡ self.entry }
    {
        let Table { held } = self;
        held
    }

    /// How many names there are; none is there twice.
    pub fn len(&self) -> usize
        ensures count { result ≡ length self.now }
        ensures once { AreOnce (names self.now) }
    {
        self.held.len()
    }

    /// Returns the map, whose order is that of the names.
    pub fn as_map(&self) -> &IndexMap<&'a [u8], V>
        ensures { map (λ e. (e.0.now, e.1)) result.now.entries ≡ self.now }
    {
        &self.held
    }

    /// Returns the value of a name.
    pub fn get(&self, name: &[u8]) -> Option<&V>
        ensures { option_copied result ≡ value_of self.now name.now }
    {
        self.held.get(name)
    }

    /// Whether a name has a value.
    pub fn contains(&self, name: &[u8]) -> bool
        ensures { result ≡ named self.now name.now }
    {
        self.held.contains_key(name)
    }

    /// Adds a name with its value, and returns whether the name is new; a name that is there takes
    /// the value in its place. If memory runs out, the names and values stay as they are.
    pub fn add(&mut self, name: &'a [u8], value: V) -> Result<bool, AllocError>
        ensures new { IfOk result (λ new. new ≡ not (named self.old name.now)) }
        ensures pairs { OnOk result (self.new ≡ with_value self.old name.now value) }
        ensures refused { OnErr result (self.new ≡ self.old) }
    {
        let before = self.held.insert(name, value)?;
        Ok(before.is_none())
    }
}
