//! Choices: patterns with bars between, as the values of rules are, by udev(7).
//!
//! Bars are looked for before anything else is read, so that a bar inside a set also cuts.
ghost use Rattle.std.specs.Prelude.{◌≡◌, ◌≢◌, ◌<◌, ◌≤◌, ◌∷◌, ◌++◌, [], length, Ok, Err, IfOk, IsErrOf, MatchResult};
ghost use Rattle.text_core.specs.Choices.{choice, choice_blind, choice_by, choice_fits};
ghost use Rattle.text_core.specs.Fnmatch.{fnmatch_choice};
ghost use Rattle.text_core.specs.Spell.{max_len};
ghost use Rattle.text_core.specs.declared.glob_fault.GlobFault.TheVariants.{Memory, TooLong};

use crate::fnmatch::{has_special, read_part};
use crate::glob_fault::GlobFault;
use crate::pattern::{MAX_LEN, Pattern};
use crate::reading::Reading;
use std::alloc::{AllocError, Global};
use std::marker::Model;
use std::slice;
use text_bytes::find;

/// The patterns of a choice: nearly all have one.
#[derive(Drop)]
enum Parts {
    /// Just this one.
    One(Pattern),
    /// These.
    Several(Vec<Pattern>),
}

/// Patterns of which one has to fit. There is always one, perhaps an empty one.
#[derive(Drop)]
pub struct Choice {
    parts: Parts,
}

impl Model for Choice {
    ghost use Rattle.std.specs.Prelude.{List};
    ghost use Rattle.text_core.specs.declared.item.Item.{Item};

    ghost Value = { List (List Item) };

    ghost use Rattle.text_core.specs.Choices.{held_parts};

    ghost view = { λ c. held_parts c.parts };
}

impl Choice {
    /// Reads the texts between the bars as patterns, in order. If parts have faults, the first of these gives its
    /// own, with the place in the whole text; a text over 16,384 bytes is `TooLong` before all else.
    pub fn read(alloc: Global, text: &[u8]) -> Result<Choice, GlobFault>
        ensures value { MatchResult result (λ c. choice text.now ≡ Ok c) (λ e. e ≢ Memory → choice text.now ≡ Err e) }
        ensures too_long { max_len < length text.now → IsErrOf result TooLong }
    {
        Choice::read_by(alloc, Reading::Exact, text)
    }

    /// As `read`, for values that ignore the case of ASCII letters: a letter stands for both its
    /// cases, and a set has both cases of each letter among its members before a sign negates it.
    /// Bytes over 0x7F are themselves.
    pub fn read_blind(alloc: Global, text: &[u8]) -> Result<Choice, GlobFault>
        ensures value { MatchResult result (λ c. choice_blind text.now ≡ Ok c) (λ e. e ≢ Memory → choice_blind text.now ≡ Err e) }
        ensures too_long { max_len < length text.now → IsErrOf result TooLong }
    {
        Choice::read_by(alloc, Reading::Blind, text)
    }

    fn read_by(alloc: Global, reading: Reading, text: &[u8]) -> Result<Choice, GlobFault>
        ensures value { MatchResult result (λ c. choice_by reading text.now ≡ Ok c) (λ e. e ≢ Memory → choice_by reading text.now ≡ Err e) }
        ensures too_long { max_len < length text.now → IsErrOf result TooLong }
    {
        if text.len() > MAX_LEN {
            return Err(GlobFault::TooLong);
        }
        let mut parts = Vec::new(alloc);
        let mut rest = text;
        while let Some(place) = find(b'|', rest) {
            let (prefix, _) = rest.split_at(place);
            let (_, following) = rest.split_at(place + 1);
            let part = Pattern::read_at(alloc, reading, text.len() - rest.len(), prefix)?;
            parts.push(part)?;
            rest = following;
        }
        let last = Pattern::read_at(alloc, reading, text.len() - rest.len(), rest)?;
        Ok(Choice::of_parts(parts, last)?)
    }

    /// Reads the texts between the bars as udev reads them, in order. If the whole text has no `*`, `?` or `[`,
    /// each part is its bytes; else each is a pattern of fnmatch(3) in the C locale. No text has a fault but one
    /// over 16,384 bytes, which is `TooLong`; `Memory` means that an allocation failed.
    pub fn read_fnmatch(alloc: Global, reading: Reading, text: &[u8]) -> Result<Choice, GlobFault>
        ensures value { MatchResult result (λ c. fnmatch_choice reading text.now ≡ Ok c) (λ e. e ≢ Memory → fnmatch_choice reading text.now ≡ Err e) }
        ensures too_long { max_len < length text.now → IsErrOf result TooLong }
    {
        if text.len() > MAX_LEN {
            return Err(GlobFault::TooLong);
        }
        let is_pattern = has_special(text);
        let mut parts = Vec::new(alloc);
        let mut rest = text;
        while let Some(place) = find(b'|', rest) {
            let (prefix, _) = rest.split_at(place);
            let (_, following) = rest.split_at(place + 1);
            let part = read_part(alloc, reading, is_pattern, prefix)?;
            parts.push(part)?;
            rest = following;
        }
        let last = read_part(alloc, reading, is_pattern, rest)?;
        Ok(Choice::of_parts(parts, last)?)
    }

    /// The choice of these patterns and a last one.
    fn of_parts(mut parts: Vec<Pattern>, last: Pattern) -> Result<Choice, AllocError>
        ensures { IfOk result (λ c. c ≡ parts.items ++ last ∷ []) }
    {
        if parts.is_empty() {
            return Ok(Choice {
                parts: Parts::One(last),
            });
        }
        parts.push(last)?;
        Ok(Choice {
            parts: Parts::Several(parts),
        })
    }

    /// Returns the patterns of the parts, in order.
    pub fn parts(&self) -> &[Pattern]
        ensures { result.now ≡ self.now }
    {
        match &self.parts {
            Parts::One(pattern) => slice::from_ref(pattern),
            Parts::Several(patterns) => patterns,
        }
    }

    /// Whether one of the parts fits the text. It takes no memory.
    pub fn fits(&self, text: &[u8]) -> bool
        ensures { result ≡ choice_fits self.now text.now }
    {
        self.parts().iter().any(|part| part.fits(text))
    }
}
