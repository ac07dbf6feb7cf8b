//! The words that can be completed at a place of a row.
ghost use Rattle.std.specs.Prelude.{◌≡◌, ◌≤◌, IfSome, length, option_map};
ghost use Rattle.lsp_words.specs.Completions.{completions_at};
ghost use Rattle.lsp_words.specs.Completions.{offered};

use crate::entries::Parts;
use crate::kinds::WordKind;
use crate::slots::slot_of;
use crate::tables::entries_of;
use text_bytes::FileKind;

/// The words that may stand at a place.
#[derive(Clone, Copy)]
pub struct Completions {
    /// Where the word that is being typed begins, in bytes from the row's start.
    pub start: usize,
    /// What the words are.
    pub kind: WordKind,
    /// All words of this kind, also those that what is typed does not begin.
    pub entries: Parts,
}

/// The words that may stand at the end of these bytes of a row, if there are any.
pub fn completions_at(kind: FileKind, before: &[u8]) -> Option<Completions>
    ensures value { option_map offered result ≡ completions_at kind before.now }
    ensures within { IfSome result (λ c. c.start ≤ length before.now) }
{
    let slot = slot_of(kind, before)?;
    Some(Completions {
        start: slot.start,
        kind: slot.kind,
        entries: entries_of(slot.kind),
    })
}
