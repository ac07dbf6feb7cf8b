//! Notes: what rules asked for that a dry run does not do.
//!
//! A note is kept as what it says and not as text: texts are made once, where they are written.
ghost use Rattle.std.specs.Prelude.{◌≡◌, ◌++◌, ◌∷◌, [], OnOk, OnErr, IfOk, option_map};
ghost use Rattle.eval_state.specs.Notes.{kept_word, note_about, word_of_key};

use crate::note_kind::NoteKind;
use rule_types::{Key, Rule};
use std::alloc::{AllocError, Global};
use std::marker::Model;
use text_bytes::{Bytes, word_of};

/// How many bytes a note keeps of what a builtin needs.
const MAX_NEEDS: usize = 256;

/// A note about a rule.
#[derive(Drop)]
pub struct Note {
    /// The name of the rule's file.
    pub file: Bytes,
    /// The number of the rule's line, as the rule has it.
    pub line: u32,
    /// What was not done.
    pub kind: NoteKind,
    /// The first 32 bytes of the text that it is about, before escaping; 256 of what a builtin needs.
    pub word: Bytes,
}

/// What a note keeps of a text.
#[tactic(auto, using(std::proofs::lemmas::List::take_min))]
fn kept_word(kind: NoteKind, text: &[u8]) -> &[u8]
    ensures { result.now ≡ kept_word kind text.now }
{
    match kind {
        NoteKind::BuiltinNeeds => &text[..MAX_NEEDS.min(text.len())],
        _ => word_of(text),
    }
}

impl Note {
    /// The note that something in a rule was not done, reported with a text.
    pub fn about(
        alloc: Global,
        rule: &Rule,
        kind: NoteKind,
        text: &[u8],
    ) -> Result<Note, AllocError>
        ensures { IfOk result (λ note. note ≡ note_about rule.now kind text.now) }
    {
        Ok(Note {
            file: Bytes::copy_of(alloc, rule.file())?,
            line: rule.line,
            kind,
            word: Bytes::copy_of(alloc, kept_word(kind, text))?,
        })
    }
}

/// Notes in the order in which they were left.
#[derive(Drop)]
pub struct Notes {
    held: Vec<Note>,
}

impl Model for Notes {
    ghost use Rattle.std.specs.Prelude.{List};
    ghost use Rattle.eval_state.specs.declared.notes.Note.{Note};

    ghost Value = { List Note };

    ghost view = { λ n. n.held.items };
}

impl Notes {
    /// No notes.
    pub fn new(alloc: Global) -> Notes
        ensures { result ≡ [] }
    {
        Notes {
            held: Vec::new(alloc),
        }
    }

    /// The notes of a vector, without a copy.
    pub fn from_vec(held: Vec<Note>) -> Notes
        ensures { result ≡ held.items }
    {
        Notes { held }
    }

    /// Returns the vector.
    pub fn into_vec(self) -> Vec<Note>
        ensures { result.items ≡ self }
    {
        let Notes { held } = self;
        held
    }

    /// Returns the notes, in their order.
    pub fn as_slice(&self) -> &[Note]
        ensures { result.now ≡ self.now }
    {
        &self.held
    }

    /// Adds a note at the end. If memory runs out, the notes stay as they are.
    pub fn add(&mut self, note: Note) -> Result<(), AllocError>
        ensures notes { OnOk result (self.new ≡ self.old ++ note ∷ []) }
        ensures refused { OnErr result (self.new ≡ self.old) }
    {
        self.held.push(note)?;
        Ok(())
    }
}

/// A key as a note names it: with its attribute in braces, if it has one.
pub(crate) fn word_of_key(
    alloc: Global,
    key: Key,
    attribute: Option<&[u8]>,
) -> Result<Vec<u8>, AllocError>
    ensures { IfOk result (λ word. word.items ≡ word_of_key key (option_map (λ text. text.now) attribute.entry)) }
{
    let mut word = Vec::from_slice(alloc, key.name())?;
    if let Some(attribute) = attribute {
        word.push(b'{')?;
        word.extend_from_slice(attribute)?;
        word.push(b'}')?;
    }
    Ok(word)
}
