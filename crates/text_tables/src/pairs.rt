//! Borrowed names with borrowed values.
ghost use Rattle.std.specs.Prelude.{◌≡◌, [], length, not, option_map, map, IfOk, OnOk, OnErr};
ghost use Rattle.text_tables.specs.Texts.{AreOnce};
ghost use Rattle.text_tables.specs.Pairs.{names, named, value_of, with_value};

use indexmap::IndexMap;
use std::alloc::{AllocError, Global};
use std::marker::Model;

/// For how many names there is room once there is one, so that a table does not grow step by step.
const USUAL_LEN: usize = 28;

/// Borrowed names with their values, in the order in which the names came, each name once.
#[derive(Drop)]
pub struct Pairs<'a> {
    held: IndexMap<&'a [u8], &'a [u8]>,
}

impl<'a> Model for Pairs<'a> {
    ghost use Rattle.std.specs.Prelude.{List, map};
    ghost use Rattle.text_bytes.specs.Text.{Text};

    ghost Value = { List (Text × Text) };

    ghost view = { λ p. map (λ e. (e.0.now, e.1.now)) p.held.entries };
}

impl<'a> Pairs<'a> {
    /// No names.
    pub fn new(alloc: Global) -> Pairs<'a>
        ensures { result ≡ [] }
    {
        Pairs {
            held: IndexMap::new(alloc),
        }
    }

    /// The names and values of a map, without a copy.
    pub fn from_map(held: IndexMap<&'a [u8], &'a [u8]>) -> Pairs<'a>
        ensures { result ≡ map (λ e. (e.0.now, e.1.now)) held.entry.entries }
    {
        Pairs { held }
    }

    /// Returns the map.
    pub fn into_map(self) -> IndexMap<&'a [u8], &'a [u8]>
        ensures { map (λ e. (e.0.now, e.1.now)) result.entries ≡ self.entry }
    {
        let Pairs { held } = self;
        held
    }

    /// How many names there are; none is there twice.
    pub fn len(&self) -> usize
        ensures count { result ≡ length self.now }
        ensures once { AreOnce (names self.now) }
    {
        self.held.len()
    }

    /// Returns the map, whose order is that of the names.
    pub fn as_map(&self) -> &IndexMap<&'a [u8], &'a [u8]>
        ensures { map (λ e. (e.0.now, e.1.now)) result.now.entries ≡ self.now }
    {
        &self.held
    }

    /// The value of a name.
    pub fn get(&self, name: &[u8]) -> Option<&'a [u8]>
        ensures { option_map (λ v. v.now) result ≡ value_of self.now name.now }
    {
        self.held.get(name).copied()
    }

    /// Makes room for as many names as a device mostly has, if there is none yet.
    fn make_room(&mut self) -> Result<(), AllocError>
        ensures { self.new ≡ self.old }
    {
        if self.held.is_empty() {
            self.held.reserve(USUAL_LEN)
        } else {
            Ok(())
        }
    }

    /// Adds a name with its value, and returns whether the name is new; a name that is there takes
    /// the value in its place. If memory runs out, the names and values stay as they are.
    pub fn add(&mut self, name: &'a [u8], value: &'a [u8]) -> Result<bool, AllocError>
        ensures new { IfOk result (λ new. new ≡ not (named self.old name.now)) }
        ensures pairs { OnOk result (self.new ≡ with_value self.old name.now value.now) }
        ensures refused { OnErr result (self.new ≡ self.old) }
    {
        self.make_room()?;
        let before = self.held.insert(name, value)?;
        Ok(before.is_none())
    }
}
