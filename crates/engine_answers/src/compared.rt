//! Two answerings of events, compared.
ghost use Rattle.std.specs.Prelude.{◌≡◌, IfOk, option_map, unwrap_or};
ghost use Rattle.engine_answers.specs.Objects.{compared};

use crate::compared_answers::differences;
use crate::objects::differences_in_json;
use crate::sides::Side;
use device_core::Event;
use engine_sessions::Answering;
use std::alloc::{AllocError, Global};
use std::marker::Model;
use text_bytes::Bytes;

/// An old and a new answering of events, which answers each event by what appears and disappears between the two, as JSON or
/// as lines.
#[derive(Drop)]
pub struct Compared<A: Side, B: Side> {
    json: bool,
    old: A,
    new: B,
}

impl<A: Side, B: Side> Model for Compared<A, B> {
    ghost use Rattle.std.specs.Prelude.{Bool};

    ghost Value = { Bool × (A × B) };

    ghost view = { λ c. (c.json, (c.old, c.new)) };
}

impl<A: Side + Drop, B: Side + Drop> Compared<A, B> {
    /// Whether the answers are objects of JSON, and the old and the new answering.
    pub fn new(json: bool, old: A, new: B) -> Compared<A, B>
        ensures { result ≡ (json, (old, new)) }
    {
        Compared { json, old, new }
    }
}

/// A text that is shown for another, or that other if none is.
fn shown_or<'a>(shown: &'a Option<Bytes>, answer: &'a [u8]) -> &'a [u8]
    ensures { result.now ≡ unwrap_or shown.now answer.now }
{
    match shown {
        Some(text) => text.as_slice(),
        None => answer,
    }
}

/// What appears and disappears between two answers to an event.
fn answer_of<A: Side, B: Side>(
    alloc: Global,
    json: bool,
    old: &A,
    new: &B,
    event: &Event<'_>,
) -> Result<Bytes, AllocError>
    ensures { IfOk result (λ text. text ≡ compared json event.now (A.answers old.now event.now) (B.answers new.now event.now)) }
{
    let old_answer = old.answer(alloc, event)?;
    let new_answer = new.answer(alloc, event)?;
    let (old_text, new_text) = (old_answer.as_slice(), new_answer.as_slice());
    if old_text == new_text {
        return Ok(Bytes::new(Vec::new(alloc)));
    }
    let old_shown = old.shown(alloc, event)?;
    let new_shown = new.shown(alloc, event)?;
    let old_both = (old_text, shown_or(&old_shown, old_text));
    let new_both = (new_text, shown_or(&new_shown, new_text));
    if json {
        differences_in_json(alloc, event, old_both, new_both)
    } else {
        differences(alloc, event, old_both, new_both)
    }
}

impl<A: Side, B: Side> Answering for Compared<A, B> {
    ghost use Rattle.engine_answers.specs.Objects.{compared};

    ghost answers = { λ both event. compared both.0 event (A.answers both.1.0 event) (B.answers both.1.1 event) };

    fn answer(&self, alloc: Global, event: &Event<'_>) -> Result<Bytes, AllocError> {
        answer_of(alloc, self.json, &self.old, &self.new, event)
    }
}
