//! What the word at a place of a row means.
ghost use Rattle.std.specs.Prelude.{◌≡◌, ◌≤◌, ◌<◌, ◌+◌, ◌-◌, ◌^◌, IfSome, drop, length, option_map, take};
ghost use Rattle.lsp_words.specs.Entries.{row_of};
ghost use Rattle.lsp_words.specs.Meanings.{IsTold, is_in, meaning_at, meaning_in, shown, size_of, slot_around, told};

use crate::classes::{is_key_byte, is_operator_byte};
use crate::entries::{Entry, entry_in};
use crate::kinds::WordKind;
use crate::slots::{Slot, slot_of};
use crate::tables::entries_of;
use text_bytes::{FileKind, is_blank};

/// A word of a row and what it means.
#[derive(Clone, Copy)]
pub struct Meaning {
    /// The place of the word's first byte, in bytes from the row's start.
    pub start: usize,
    /// The place after its last byte.
    pub end: usize,
    /// What it means, in Markdown.
    pub text: &'static str,
}

/// Whether a byte may be in a word of a kind.
fn is_in(kind: WordKind, byte: u8) -> bool
    ensures { result ≡ is_in kind byte }
{
    match kind {
        WordKind::Key => is_key_byte(byte),
        WordKind::Operator => is_operator_byte(byte),
        WordKind::Match => true,
        WordKind::RuleOption => !(is_blank(byte) || byte == b'"'),
        _ => !(is_blank(byte) || byte == b'"' || byte == b'}' || byte == b'|' || byte == b'='),
    }
}

/// How many bytes of a word of a kind a text begins with.
fn size_of(kind: WordKind, text: &[u8]) -> usize
    ensures { result ≡ size_of kind text.now }
{
    text.iter().take_while(|byte| is_in(kind, **byte)).count()
}

/// The first so many bytes of a row, or all of it.
#[tactic(auto, using(std::proofs::lemmas::List::take_min))]
fn front(row: &[u8], size: usize) -> &[u8]
    ensures value { result.now ≡ take size row.now }
    ensures within { length result.now ≤ size }
{
    &row[..size.min(row.len())]
}

/// The slot of the word at a place of a row: of the one that the byte there is in, or else of the one that ends there.
#[tactic(auto, unfolding(crate::specs::Meanings::slot_around))]
fn slot_around(kind: FileKind, row: &[u8], at: usize) -> Option<Slot>
    ensures value { result ≡ slot_around kind row.now at }
    ensures within { IfSome result (λ slot. slot.start ≤ length row.now) }
    ensures begun { IfSome result (λ slot. slot.start ≤ at) }
{
    let before = slot_of(kind, front(row, at));
    match slot_of(kind, front(row, at.saturating_add(1))) {
        None => before,
        Some(slot) => { if slot.start <= at { Some(slot) } else { before } }
    }
}

/// What is told about a word that begins at a place, if it reaches to the other place.
fn told(at: usize, start: usize, row: Entry) -> Option<Meaning>
    requires { start + length row.0.now < 2 ^ 64 }
    ensures value { option_map shown result ≡ told at start (row_of row.entry) }
    ensures around { IfSome result (λ m. (m.start ≡ start) × (at ≤ m.end)) }
{
    let size = row.0.len();
    if at <= start + size {
        Some(Meaning {
            start,
            end: start + size,
            text: row.1,
        })
    } else {
        None
    }
}

/// What is told about the word of a slot.
#[tactic(auto, using(crate::proofs::Standing::within_of, crate::proofs::Standing::entry_of), unfolding(crate::specs::Meanings::meaning_in))]
fn meaning_in(row: &[u8], at: usize, slot: Slot) -> Option<Meaning>
    requires { slot.start ≤ length row.now }
    ensures value { option_map shown result ≡ meaning_in row.now at slot }
    ensures within { IfSome result (λ m. (m.start ≤ m.end) × (m.end ≤ length row.now)) }
    ensures entry { IfSome result (λ m. IsTold (take (m.end - m.start) (drop m.start row.now)) m.text.now) }
    ensures around { IfSome result (λ m. (m.start ≡ slot.start) × (at ≤ m.end)) }
{
    let (_, text) = row.split_at(slot.start);
    let parts = entries_of(slot.kind);
    let entry = entry_in(&parts, size_of(slot.kind, text), text)?;
    told(at, slot.start, entry)
}

/// What the word at a place of a row means, if a table has it: the word that the byte at that place is in, or else the
/// one that ends there. A row is a line without its end, and the place is in bytes from its start.
pub fn meaning_at(kind: FileKind, row: &[u8], at: usize) -> Option<Meaning>
    ensures value { option_map shown result ≡ meaning_at kind row.now at }
    // The word is in the row.
    ensures within { IfSome result (λ m. (m.start ≤ m.end) × (m.end ≤ length row.now)) }
    // The place is in the word, or at its end.
    ensures around { IfSome result (λ m. (m.start ≤ at) × (at ≤ m.end)) }
    // What is told is what a table has about this word.
    ensures entry { IfSome result (λ m. IsTold (take (m.end - m.start) (drop m.start row.now)) m.text.now) }
{
    let slot = slot_around(kind, row, at)?;
    meaning_in(row, at, slot)
}
