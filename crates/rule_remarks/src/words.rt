//! The words of a token: the texts that it compares with or assigns, each once.
ghost use Rattle.std.specs.Prelude.{◌≡◌, IfOk, OnOk, option_map};
ghost use Rattle.rule_remarks.specs.Words.{parts_of, with_word, words_of};

use std::alloc::{AllocError, Global};
use text_bytes::find;
use text_tables::OwnedTexts;

/// The words of a text, if there is one: those between bars, or the whole.
#[tactic(auto, unfolding(crate::specs::Words::words_of))]
pub(crate) fn words_of(
    alloc: Global,
    between_bars: bool,
    text: Option<&[u8]>,
) -> Result<OwnedTexts, AllocError>
    ensures { IfOk result (λ words. words ≡ words_of between_bars (option_map (λ text. text.now) text.entry)) }
{
    let Some(text) = text else {
        return Ok(OwnedTexts::new(alloc));
    };
    if between_bars {
        return parts_of(alloc, text);
    }
    let mut words = OwnedTexts::new(alloc);
    words.add(alloc, text)?;
    Ok(words)
}

/// The texts between bars that are not empty, each once.
#[tactic(auto, using(crate::proofs::Cutting::word_more, crate::proofs::Cutting::word_last))]
fn parts_of(alloc: Global, text: &[u8]) -> Result<OwnedTexts, AllocError>
    ensures { IfOk result (λ words. words ≡ parts_of text.now) }
{
    let mut words = OwnedTexts::new(alloc);
    let mut rest = text;
    while let Some(place) = find(b'|', rest) {
        let (part, _) = rest.split_at(place);
        let (_, following) = rest.split_at(place + 1);
        add_word(alloc, &mut words, part)?;
        rest = following;
    }
    add_word(alloc, &mut words, rest)?;
    Ok(words)
}

/// Adds a word unless it is empty.
fn add_word(alloc: Global, words: &mut OwnedTexts, part: &[u8]) -> Result<(), AllocError>
    ensures { OnOk result (words.new ≡ with_word words.old part.now) }
{
    if part.is_empty() {
        Ok(())
    } else {
        words.add(alloc, part)
    }
}
