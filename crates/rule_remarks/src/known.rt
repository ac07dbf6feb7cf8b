//! What is known of the tokens after one, by which most of them need not be compared with it.
//!
//! A rule may have thousands of tokens, so that comparing each two of them would take long. A token has to be compared
//! with those after it only if one of them has the same key and all its words, or if nothing that it reaches is reached by
//! all of them that have its key.
ghost use Rattle.std.specs.Prelude.{◌≡◌, [], IfOk, OnOk, map, option_map};
ghost use Rattle.text_tables.specs.Pairs.{value_of, with_value};
ghost use Rattle.text_tables.specs.Texts.{with_texts};
ghost use Rattle.rule_remarks.specs.Known.{AreChances, chance_of, key_of, may_be_apart, may_be_like, reached, shared_with, with_option, with_words};

use crate::form::Form;
use crate::relations::{beginning, has_any, is_strict, lacks_words};
use crate::said::{Said, opposite};
use indexmap::IndexMap;
use rule_types::Operator;
use std::alloc::{AllocError, Global};
use std::marker::Model;
use text_tables::OwnedTexts;

/// How many tokens are few.
const FEW: usize = 24;

/// What is known of tokens.
#[derive(Drop)]
struct Known {
    /// The key of each of them, and its key before each of its words.
    texts: OwnedTexts,
    /// For each key what all tokens reach that have it.
    shared: IndexMap<Vec<u8>, OwnedTexts>,
}

impl Model for Known {
    ghost use Rattle.std.specs.Prelude.{map};
    ghost use Rattle.rule_remarks.specs.Known as spec;

    ghost Value = { spec.Known };

    ghost view = { λ k. record { texts = k.texts; shared = map (λ e. (e.0.items, e.1)) k.shared.entries } };
}

/// The text under which tokens are found that are of one matter, compare in one way and have an operator.
fn key_of(alloc: Global, said: &Said, operator: Operator) -> Result<Vec<u8>, AllocError>
    ensures { IfOk result (λ key. key.items ≡ key_of said.now operator) }
{
    let mut key = Vec::from_slice(alloc, said.key)?;
    key.extend_from_slice(said.kind)?;
    key.extend_from_slice(said.name.as_slice())?;
    key.extend_from_slice(&said.number.unwrap_or(0).to_be_bytes())?;
    key.extend_from_slice(&[
        said.form as u8,
        said.blind as u8,
        said.trims as u8,
        operator as u8,
    ])?;
    Ok(key)
}

/// Adds a key before each of these words.
fn add_words(
    alloc: Global,
    texts: &mut OwnedTexts,
    key: &[u8],
    words: &[Vec<u8>],
) -> Result<(), AllocError>
    ensures { OnOk result (texts.new ≡ with_words key.now texts.old (map (λ word. word.items) words.now)) }
{
    for word in words {
        let mut text = Vec::from_slice(alloc, key)?;
        text.extend_from_slice(word)?;
        texts.add(alloc, &text)?;
    }
    Ok(())
}

/// What words of a form reach: of a pattern only what is before its first `*`, `?` or `[` counts.
fn reach_of(alloc: Global, form: Form, words: &[Vec<u8>]) -> Result<OwnedTexts, AllocError>
    ensures { IfOk result (λ reach. reach ≡ with_texts [] (map (reached form) (map (λ word. word.items) words.now))) }
{
    let mut reach = OwnedTexts::new(alloc);
    for word in words {
        match form {
            Form::Pattern => reach.add(alloc, beginning(word))?,
            _ => reach.add(alloc, word)?,
        }
    }
    Ok(reach)
}

/// What tokens share, if there are any, that one more reaches, too.
fn shared_with(
    alloc: Global,
    shared: Option<&OwnedTexts>,
    reach: OwnedTexts,
) -> Result<OwnedTexts, AllocError>
    ensures { IfOk result (λ both. both ≡ shared_with (option_map (λ texts. texts.now) shared.entry) reach) }
{
    let Some(texts) = shared else {
        return Ok(reach);
    };
    let mut both = OwnedTexts::new(alloc);
    for text in texts.as_slice() {
        if reach.contains(text) {
            both.add(alloc, text)?;
        }
    }
    Ok(both)
}

/// Gives a key what all tokens reach that have it.
fn put(
    shared: &mut IndexMap<Vec<u8>, OwnedTexts>,
    key: Vec<u8>,
    reach: OwnedTexts,
) -> Result<(), AllocError>
    ensures { OnOk result (map (λ e. (e.0.items, e.1)) shared.new.entries ≡ with_value (map (λ e. (e.0.items, e.1)) shared.old.entries) key.items reach) }
{
    shared.insert(key, reach)?;
    Ok(())
}

impl Known {
    /// What all tokens reach that have a key, if there are any.
    fn shared_at(&self, key: &[u8]) -> Option<&OwnedTexts>
        ensures { option_map (λ texts. texts.now) result ≡ value_of self.now.shared key.now }
    {
        self.shared.get(key)
    }

    /// Adds a token if it is compared with others.
    fn add(&mut self, alloc: Global, said: &Option<Said>) -> Result<(), AllocError>
        ensures { OnOk result (self.new ≡ with_option self.old said.now) }
    {
        let Some(said) = said else {
            return Ok(());
        };
        let key = key_of(alloc, said, said.operator)?;
        let reach = reach_of(alloc, said.form, said.words.as_slice())?;
        let shared = shared_with(alloc, self.shared_at(&key), reach)?;
        self.texts.add(alloc, &key)?;
        add_words(alloc, &mut self.texts, &key, said.words.as_slice())?;
        put(&mut self.shared, key, shared)
    }

    /// Whether there may be a token that is like this one and has an operator.
    fn may_be_like(
        &self,
        alloc: Global,
        said: &Said,
        operator: Operator,
    ) -> Result<bool, AllocError>
        ensures { IfOk result (λ may. may ≡ may_be_like self.now said.now operator) }
    {
        let key = key_of(alloc, said, operator)?;
        if !self.texts.contains(&key) {
            return Ok(false);
        }
        if lacks_words(said) {
            return Ok(true);
        }
        for word in said.words.as_slice() {
            let mut text = Vec::from_slice(alloc, &key)?;
            text.extend_from_slice(word)?;
            if !self.texts.contains(&text) {
                return Ok(false);
            }
        }
        Ok(true)
    }

    /// Whether there may be a token whose words exclude those of this one.
    fn may_be_apart(&self, alloc: Global, said: &Said) -> Result<bool, AllocError>
        ensures { IfOk result (λ may. may ≡ may_be_apart self.now said.now) }
    {
        if !is_strict(said) || !matches!(said.form, Form::Plain | Form::Pattern) {
            return Ok(false);
        }
        let key = key_of(alloc, said, said.operator)?;
        let reach = reach_of(alloc, said.form, said.words.as_slice())?;
        match self.shared_at(&key) {
            None => Ok(false),
            Some(shared) => Ok(!has_any(shared, reach.as_slice())),
        }
    }

    /// Whether there may be a token that says the same as this one, and one that excludes it.
    fn chance_of(&self, alloc: Global, said: &Option<Said>) -> Result<(bool, bool), AllocError>
        ensures { IfOk result (λ chance. chance ≡ chance_of self.now said.now) }
    {
        let Some(said) = said else {
            return Ok((false, false));
        };
        let same = self.may_be_like(alloc, said, said.operator)?;
        if said.operator.compares() && self.may_be_like(alloc, said, opposite(said.operator))? {
            return Ok((same, true));
        }
        Ok((same, self.may_be_apart(alloc, said)?))
    }
}

/// For each token, the last one first, whether there may be one after it that says the same, and one that excludes it.
///
/// That is known of many tokens: few of them are compared two by two in less time than it takes to know more.
#[tactic(auto, using(crate::proofs::Chances::known_more, crate::proofs::Chances::chances_more, crate::proofs::Chances::few, crate::proofs::Chances::many))]
pub(crate) fn chances_of(
    alloc: Global,
    said: &[Option<Said>],
) -> Result<Vec<(bool, bool)>, AllocError>
    ensures { IfOk result (λ chances. AreChances chances.items said.now) }
{
    if said.len() <= FEW {
        return Ok(Vec::new(alloc));
    }
    let mut known = Known {
        texts: OwnedTexts::new(alloc),
        shared: IndexMap::new(alloc),
    };
    let mut chances = Vec::with_capacity(alloc, said.len())?;
    for place in 0..said.len() {
        let token = &said[said.len() - 1 - place];
        chances.push(known.chance_of(alloc, token)?)?;
        known.add(alloc, token)?;
    }
    Ok(chances)
}
