//! What the nodes of a database answer for a modalias: only the active nodes are looked at.
ghost use Rattle.std.specs.Prelude.{◌≡◌, ◌<◌, [], ◌++◌, IfOk, OnOk, flat_map, fold, length, map};
ghost use Rattle.trie_nodes.specs.Found.{found_entries};
ghost use Rattle.trie_nodes.specs.Query.{put, query, shown, shown_origin, sourced};
ghost use Rattle.trie_nodes.specs.Tree.{active_after};
ghost use Rattle.trie_nodes.specs.Values.{bare, listed, values_of};

use crate::found::{Found, settle};
use crate::lookup::Sourced;
use crate::tree::Database;
use crate::walk::visits;
use std::alloc::{AllocError, Global};

/// Adds the values of a node, in order.
fn push_values<'a, D: Database>(
    found: &mut Vec<Found<'a>>,
    database: &'a D,
    i: u32,
) -> Result<(), AllocError>
    requires { i < length (D.nodes database.now) }
    ensures { OnOk result (found_entries found.new.items
        ≡ found_entries found.old.items ++ map bare (values_of (D.nodes database.now) (D.values database.now) i)) }
{
    let numbers = database.values_of(i);
    for j in numbers.start..numbers.end {
        found.push(database.value(j))?;
    }
    Ok(())
}

/// The values of the active nodes that count, sorted by key.
fn winners<'a, D: Database>(
    alloc: Global,
    database: &'a D,
    modalias: &[u8],
) -> Result<Vec<Found<'a>>, AllocError>
    ensures { IfOk result (λ won. found_entries won.items
        ≡ fold put [] (map bare (flat_map (values_of (D.nodes database.now) (D.values database.now)) (active_after (D.nodes database.now) modalias.now)))) }
{
    let (active, _) = visits(alloc, database, modalias)?;
    let mut found = Vec::new(alloc);
    for i in &active {
        push_values(&mut found, database, *i)?;
    }
    settle(alloc, found)
}

/// The keys and values of the properties for a modalias, sorted by key.
pub fn query<'a, D: Database>(
    alloc: Global,
    database: &'a D,
    modalias: &[u8],
) -> Result<Vec<(&'a [u8], &'a [u8])>, AllocError>
    ensures { IfOk result (λ found. shown found.items ≡ query (listed (D.nodes database.now) (D.values database.now)) modalias.now) }
{
    let won = winners(alloc, database, modalias)?;
    let mut found = Vec::with_capacity(alloc, won.len())?;
    for winner in &won {
        found.push((winner.key, winner.value))?;
    }
    Ok(found)
}

/// The same properties, each with the file and line that it comes from.
pub fn query_sources<'a, D: Database>(
    alloc: Global,
    database: &'a D,
    modalias: &[u8],
) -> Result<Vec<Sourced<'a>>, AllocError>
    ensures { IfOk result (λ found. map shown_origin found.items ≡ sourced (listed (D.nodes database.now) (D.values database.now)) modalias.now) }
{
    let won = winners(alloc, database, modalias)?;
    let mut found = Vec::with_capacity(alloc, won.len())?;
    for winner in &won {
        found.push(Sourced {
            key: winner.key,
            value: winner.value,
            file: winner.file,
            line: winner.line,
        })?;
    }
    Ok(found)
}
