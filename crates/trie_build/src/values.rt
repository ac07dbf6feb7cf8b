//! Writing the values of an index, and their texts.
//!
//! The values are entries, given by their numbers in the order in which they are written.
ghost use Rattle.std.specs.Prelude.{◌≡◌, ◌+◌, ◌<◌, ◌++◌, All, IfOk, OnOk, flat_map, length, map, slice_index, take};
ghost use Rattle.std.specs.List.{range_with_len};
ghost use Rattle.trie_nodes.specs.declared.entry.Entry.{Entry};
ghost use Rattle.trie_build.specs.Content.{entry_at, shown};
ghost use Rattle.trie_build.specs.Distinct.{IsIn, number_in};
ghost use Rattle.text_bytes.specs.Insertion.{text_order};
ghost use Rattle.trie_build.specs.Numbers.{IsSmall};
ghost use Rattle.trie_build.specs.Records.{value_bytes};
ghost use Rattle.trie_build.specs.Image.{all_names, own_text};
ghost use Rattle.trie_build.specs.Writing.{AreTexts, name_places, named, value_records};

use crate::records::{Span, ValueRecord};
use crate::texts::number_of;
use std::alloc::{AllocError, Global};
use trie_nodes::Entry;

/// The entry that a value is.
fn entry_of<'a>(entries: &'a [Entry], order: &[u32], j: usize) -> &'a Entry
    requires within { All (λ n. n < length entries.now) order.now }
    requires inside { j < length order.now }
    ensures { result.now ≡ entry_at (named entries.now order.now) j }
{
    &entries[order[j] as usize]
}

/// How many bytes the key and the value of an entry have.
fn own_len(entry: &Entry) -> u32
    requires { IsSmall (length (own_text entry.now)) }
    ensures { result ≡ length (own_text entry.now) }
{
    entry.key.as_slice().len() as u32 + entry.value.as_slice().len() as u32
}

/// How many bytes the keys and values of entries have.
pub(crate) fn texts_len(entries: &[Entry], order: &[u32]) -> u32
    requires within { All (λ n. n < length entries.now) order.now }
    requires short { IsSmall (length (flat_map own_text (named entries.now order.now))) }
    ensures { result ≡ length (flat_map own_text (named entries.now order.now)) }
{
    let mut len = 0;
    for j in 0..order.len() {
        len += own_len(entry_of(entries, order, j));
    }
    len
}

/// Where the names of files begin in the text, which come after so many bytes, and where the last of them ends.
pub(crate) fn places_of(alloc: Global, from: u32, names: &[&[u8]]) -> Result<Vec<u32>, AllocError>
    requires { IsSmall (from + length (all_names (shown names.now))) }
    ensures { IfOk result (λ places. places.items ≡ map (λ k. from + length (all_names (take k (shown names.now)))) (range_with_len 0 (length names.now + 1))) }
{
    let mut places = Vec::new(alloc);
    let mut place = from;
    for k in 0..names.len() {
        places.push(place)?;
        place += names[k].len() as u32;
    }
    places.push(place)?;
    Ok(places)
}

/// An entry as it is written, with its texts from a place on.
fn record_of(entry: &Entry, place: u32, names: &[&[u8]], places: &[u32]) -> ValueRecord
    requires own { IsSmall (place + length (own_text entry.now)) }
    requires names { AreTexts (shown names.now) }
    requires there { IsIn entry.now.file (shown names.now) }
    requires short { IsSmall (length entry.now.file) }
    requires places { length names.now < length places.now }
    ensures { result ≡ record {
      key = record { place = place; len = length entry.now.key };
      value = record { place = place + length entry.now.key; len = length entry.now.value };
      order = entry.now.order;
      file = record { place = slice_index places.now (number_in text_order (shown names.now) entry.now.file); len = length entry.now.file };
      line = entry.now.line;
    } }
{
    let key = entry.key.as_slice();
    let value = entry.value.as_slice();
    let name = entry.file.as_slice();
    ValueRecord {
        key: Span {
            place,
            len: key.len() as u32,
        },
        value: Span {
            place: place + key.len() as u32,
            len: value.len() as u32,
        },
        order: entry.order,
        file: Span {
            place: places[number_of(names, name) as usize],
            len: name.len() as u32,
        },
        line: entry.line,
    }
}

/// Adds the values.
pub(crate) fn push_values(
    out: &mut Vec<u8>,
    entries: &[Entry],
    order: &[u32],
    names: &[&[u8]],
    places: &[u32],
) -> Result<(), AllocError>
    requires within { All (λ n. n < length entries.now) order.now }
    requires short { IsSmall (length (flat_map own_text (named entries.now order.now))) }
    requires names { AreTexts (shown names.now) }
    requires there { (e : Entry) → IsIn e entries.now → IsIn e.file (shown names.now) }
    requires lengths { IsSmall (length (all_names (shown names.now))) }
    requires places { places.now ≡ name_places (named entries.now order.now) (shown names.now) }
    ensures { OnOk result (out.new.items ≡ out.old.items ++ flat_map value_bytes (value_records (named entries.now order.now) (shown names.now))) }
{
    let mut place = 0;
    for j in 0..order.len() {
        let entry = entry_of(entries, order, j);
        record_of(entry, place, names, places).write(out)?;
        place += own_len(entry);
    }
    Ok(())
}

/// Adds the keys and values of entries.
pub(crate) fn push_texts(
    out: &mut Vec<u8>,
    entries: &[Entry],
    order: &[u32],
) -> Result<(), AllocError>
    requires { All (λ n. n < length entries.now) order.now }
    ensures { OnOk result (out.new.items ≡ out.old.items ++ flat_map own_text (named entries.now order.now)) }
{
    for j in 0..order.len() {
        let entry = entry_of(entries, order, j);
        out.extend_from_slice(entry.key.as_slice())?;
        out.extend_from_slice(entry.value.as_slice())?;
    }
    Ok(())
}
