//! Names with values, sorted by name: what is left of properties at the end.
//!
//! The names and values stay where they are: their places are sorted, and of a name mostly its first bytes are looked
//! at.
ghost use Rattle.std.specs.Prelude.{◌≡◌, ◌<◌, [], length, get_or, map, IfOk};
ghost use Rattle.text_bytes.specs.Insertion.{text_order};
ghost use Rattle.text_tables.specs.Heads.{named_places, pair_at};
ghost use Rattle.text_tables.specs.Pairs.{names};
ghost use Rattle.text_tables.specs.Sorted.{by_name};
ghost use Rattle.text_tables.specs.Texts.{AreOnce};

use crate::cow_pairs::CowPairs;
use crate::headed_names::HeadedName;
use std::alloc::{AllocError, Global};
use std::cmp::Ordering;
use std::marker::Model;

/// Names with their values, borrowed or owned, sorted by name, byte by byte; each name is there once. They are made from
/// a table, which stays as it is: it can be read, and taken back.
#[derive(Drop)]
pub struct SortedPairs<'a> {
    held: CowPairs<'a>,
    /// The place of each name among those that are held, sorted by name.
    order: Vec<usize>,
}

impl<'a> Model for SortedPairs<'a> {
    ghost use Rattle.std.specs.Prelude.{◌≡◌, List, map};
    ghost use Rattle.text_bytes.specs.Text.{Text};
    ghost use Rattle.text_tables.specs.Heads.{pair_at};
    ghost use Rattle.text_tables.specs.Sorted.{by_name};

    ghost Value = { List (Text × Text) };

    ghost view = { λ p. map (pair_at p.held) p.order.items };

    ghost invariant = { λ p. map (pair_at p.held) p.order.items ≡ by_name p.held };
}

/// Each name with its place, in the order of the places.
fn named_places<'s>(
    alloc: Global,
    pairs: &'s CowPairs<'_>,
) -> Result<Vec<HeadedName<'s>>, AllocError>
    ensures places { IfOk result (λ places. places.items ≡ named_places 0 (names pairs.now)) }
    ensures once { AreOnce (names pairs.now) }
{
    let mut places = Vec::with_capacity(alloc, pairs.len())?;
    for name in pairs.as_map().keys() {
        let place = places.len();
        places.push(HeadedName::new(name.as_slice(), place))?;
    }
    Ok(places)
}

/// The places of names, sorted by name.
fn places_by_name(alloc: Global, pairs: &CowPairs<'_>) -> Result<Vec<usize>, AllocError>
    ensures { IfOk result (λ order. map (pair_at pairs.now) order.items ≡ by_name pairs.now) }
{
    let mut places = named_places(alloc, pairs)?;
    places.sort_unstable_by(
        |name: &HeadedName<'_>, other: &HeadedName<'_>| -> Ordering
            ensures { result ≡ text_order name.now.0 other.now.0 }
        { name.compare(other) },
    );
    places.iter().map(HeadedName::place).collect(alloc)
}

impl<'a> SortedPairs<'a> {
    /// The same names and values, sorted by name.
    pub fn new(alloc: Global, pairs: CowPairs<'a>) -> Result<SortedPairs<'a>, AllocError>
        ensures { IfOk result (λ sorted. sorted ≡ by_name pairs.entry) }
    {
        let order = places_by_name(alloc, &pairs)?;
        Ok(SortedPairs { held: pairs, order })
    }

    /// The table that they were made from, in its own order.
    pub fn as_pairs(&self) -> &CowPairs<'a>
        ensures { by_name result.now ≡ self.now }
    {
        &self.held
    }

    /// Gives the table back.
    pub fn into_pairs(self) -> CowPairs<'a>
        ensures { by_name result ≡ self.entry }
    {
        self.held
    }

    /// How many names there are.
    pub fn len(&self) -> usize
        ensures { result ≡ length self.now }
    {
        self.order.len()
    }

    /// The name at a place with its value, in the order of the names.
    pub fn pair_at(&self, place: usize) -> (&[u8], &[u8])
        requires { place < length self.now }
        ensures { (result.0.now, result.1.now) ≡ get_or self.now place ([], []) }
    {
        self.held.pair_at(self.order[place])
    }
}
