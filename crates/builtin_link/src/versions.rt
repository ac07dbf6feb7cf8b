//! How versions follow one another, and what KernelVersion asks of one.
ghost use Rattle.std.specs.Prelude.{◌≡◌, ◌∷◌, ◌++◌, ◌≤◌, [], IfOk, OnOk, length, map};
ghost use Rattle.std.specs.List.{prefix_len};
ghost use Rattle.link_files.specs.Words.{words_of};
ghost use Rattle.link_files.specs.declared.words.WordKind.TheVariants.{Property};
ghost use Rattle.builtin_link.specs.Versions.{after_front, after_word, asked, asked_by, front_of, is_as_all_ask, is_as_value_asks, is_as_words_ask};
ghost use Rattle.builtin_link.specs.Versions.{is_of, later_parts, part_ranks, rank, stands, version_order, version_ranks, without, word_ranks};

use crate::globs::fits_glob;
use link_files::{WordKind, from_start, is_whole, stripped};
use std::alloc::{AllocError, Global};
use std::cmp::Ordering;
use std::marker::Model;
use text_bytes::{Bytes, begins_with, following, is_digit};

/// A kind of bytes of a version.
#[derive(Clone, Copy)]
enum ByteKind {
    Digit,
    Zero,
    Letter,
    /// What only separates the parts of a version.
    Separator,
}

/// How a version stands to a text.
#[derive(Clone, Copy)]
pub(crate) enum Relation {
    /// It fits a pattern.
    Fits,
    /// It is the text.
    Is,
    /// It comes before it.
    Before,
    /// Neither comes before the other.
    Same,
    /// It comes after it.
    After,
}

/// What a word asks: whether the version stands in a relation to a text, or does not.
#[derive(Drop)]
pub(crate) struct Demand<'w> {
    relation: Relation,
    wanted: bool,
    pub(crate) text: &'w [u8],
}

impl<'w> Model for Demand<'w> {
    ghost use Rattle.builtin_link.specs.Versions as spec;

    ghost Value = { spec.Demand };

    ghost view = { λ a. record { relation = a.relation; wanted = a.wanted; text = a.text.now } };
}

/// The operators, of which the first counts that a word begins with.
const OPERATORS: [(&[u8], (Relation, bool)); 10] = [
    (b"$=", (Relation::Fits, true)),
    (b"!$=", (Relation::Fits, false)),
    (b"<>", (Relation::Same, false)),
    (b"<=", (Relation::After, false)),
    (b"<", (Relation::Before, true)),
    (b">=", (Relation::Before, false)),
    (b">", (Relation::After, true)),
    (b"==", (Relation::Same, true)),
    (b"=", (Relation::Is, true)),
    (b"!=", (Relation::Is, false)),
];

/// Whether a byte of a version is of a kind.
fn is_of(kind: ByteKind, byte: u8) -> bool
    ensures { result ≡ is_of kind byte }
{
    match kind {
        ByteKind::Digit => is_digit(byte),
        ByteKind::Zero => byte == b'0',
        ByteKind::Letter => byte.is_ascii_alphabetic(),
        ByteKind::Separator => {
            !(is_digit(byte) || byte.is_ascii_alphabetic() || b"~-^.".contains(&byte))
        }
    }
}

/// How many bytes at the front of a text are of a kind.
fn front_size(kind: ByteKind, text: &[u8]) -> usize
    ensures value { result ≡ prefix_len (is_of kind) text.now }
    ensures within { result ≤ length text.now }
{
    text.iter().take_while(|byte| is_of(kind, **byte)).count()
}

/// The bytes of a kind at the front of a text, and what follows them.
fn split_front(kind: ByteKind, text: &[u8]) -> (&[u8], &[u8])
    ensures front { result.0.now ≡ front_of kind text.now }
    ensures rest { result.1.now ≡ after_front kind text.now }
{
    text.split_at(front_size(kind, text))
}

/// Adds the rank that a sign gives, and returns what follows the sign, if it is there.
fn add_rank<'v>(ranks: &mut Vec<u8>, sign: u8, text: &'v [u8]) -> Result<&'v [u8], AllocError>
    ensures ranks { OnOk result (ranks.new.items ≡ ranks.old.items ++ rank sign text.now ∷ []) }
    ensures rest { IfOk result (λ rest. rest.now ≡ without sign text.now) }
{
    if begins_with(sign, text) {
        ranks.push(0)?;
        return Ok(text.split_at(1).1);
    }
    ranks.push(1)?;
    Ok(text)
}

/// Adds the ranks of a number or of letters, and returns what follows them.
fn add_word<'v>(ranks: &mut Vec<u8>, text: &'v [u8]) -> Result<&'v [u8], AllocError>
    ensures ranks { OnOk result (ranks.new.items ≡ ranks.old.items ++ word_ranks text.now) }
    ensures rest { IfOk result (λ rest. rest.now ≡ after_word text.now) }
{
    let (digits, rest) = split_front(ByteKind::Digit, text);
    if digits.is_empty() {
        let (letters, rest) = split_front(ByteKind::Letter, text);
        ranks.push(0)?;
        ranks.extend_from_slice(letters)?;
        ranks.push(0)?;
        return Ok(rest);
    }
    let (_, number) = split_front(ByteKind::Zero, digits);
    ranks.push(1)?;
    ranks.extend_from_slice(&number.len().to_be_bytes())?;
    ranks.extend_from_slice(number)?;
    Ok(rest)
}

/// Adds the ranks of a part of a version, and returns the parts after it.
fn add_part<'v>(ranks: &mut Vec<u8>, text: &'v [u8]) -> Result<&'v [u8], AllocError>
    ensures ranks { OnOk result (ranks.new.items ≡ ranks.old.items ++ part_ranks text.now) }
    ensures rest { IfOk result (λ rest. rest.now ≡ later_parts text.now) }
{
    let after_minus = add_rank(ranks, b'-', text)?;
    let after_caret = add_rank(ranks, b'^', after_minus)?;
    let word = add_rank(ranks, b'.', after_caret)?;
    let rest = add_word(ranks, word)?;
    Ok(split_front(ByteKind::Separator, rest).1)
}

/// The ranks of a version.
#[tactic(auto, using(crate::proofs::Ranks::first_ranks, crate::proofs::Ranks::ended, crate::proofs::Ranks::one_more))]
fn version_ranks(alloc: Global, version: &[u8]) -> Result<Vec<u8>, AllocError>
    ensures { IfOk result (λ ranks. ranks.items ≡ version_ranks version.now) }
{
    let mut ranks = Vec::new(alloc);
    let mut text = split_front(ByteKind::Separator, version).1;
    let mut left = version.len() + 1;
    while left > 0 {
        text = add_rank(&mut ranks, b'~', text)?;
        if text.is_empty() {
            ranks.push(0)?;
            return Ok(ranks);
        }
        ranks.push(1)?;
        text = add_part(&mut ranks, text)?;
        left -= 1;
    }
    Ok(ranks)
}

/// How a version stands to another.
fn version_order(alloc: Global, version: &[u8], other: &[u8]) -> Result<Ordering, AllocError>
    ensures { IfOk result (λ order. order ≡ version_order version.now other.now) }
{
    let ranks = version_ranks(alloc, version)?;
    let others = version_ranks(alloc, other)?;
    Ok(ranks.as_slice().cmp(others.as_slice()))
}

/// Whether a version stands in a relation to a text.
fn stands(
    alloc: Global,
    relation: Relation,
    version: &[u8],
    text: &[u8],
) -> Result<bool, AllocError>
    ensures { IfOk result (λ holds. holds ≡ stands relation version.now text.now) }
{
    match relation {
        Relation::Fits => fits_glob(alloc, text, version),
        Relation::Is => Ok(version == text),
        Relation::Before => Ok(version_order(alloc, version, text)?.is_lt()),
        Relation::Same => Ok(version_order(alloc, version, text)?.is_eq()),
        Relation::After => Ok(version_order(alloc, version, text)?.is_gt()),
    }
}

/// What a word asks by these operators; without one, that the version fits it.
fn asked_by<'w>(operators: &[(&[u8], (Relation, bool))], word: &'w [u8]) -> Demand<'w>
    ensures { result ≡ asked_by (map (λ o. (o.0.now, o.1)) operators.now) word.now }
{
    for (sign, (relation, wanted)) in operators {
        if let Some(rest) = following(sign, word) {
            return Demand {
                relation: *relation,
                wanted: *wanted,
                text: from_start(rest),
            };
        }
    }
    Demand {
        relation: Relation::Fits,
        wanted: true,
        text: word,
    }
}

/// What a word asks.
pub(crate) fn asked(word: &[u8]) -> Demand<'_>
    ensures { result ≡ asked word.now }
{
    asked_by(&OPERATORS, stripped(word))
}

/// Whether a version is as each word asks.
fn is_as_all_ask(alloc: Global, version: &[u8], words: &[Bytes]) -> Result<Option<bool>, AllocError>
    ensures { IfOk result (λ holds. holds ≡ is_as_all_ask version.now words.now) }
{
    for word in words {
        let asked = asked(word.as_slice());
        if asked.text.is_empty() {
            return Ok(None);
        }
        if stands(alloc, asked.relation, version, asked.text)? != asked.wanted {
            return Ok(Some(false));
        }
    }
    Ok(Some(true))
}

/// The same of words of which the first may be an operator alone.
fn is_as_words_ask(
    alloc: Global,
    version: &[u8],
    words: &[Bytes],
) -> Result<Option<bool>, AllocError>
    ensures { IfOk result (λ holds. holds ≡ is_as_words_ask version.now words.now) }
{
    let Some((word, more)) = words.split_first() else {
        return Ok(Some(true));
    };
    let asked = asked(word.as_slice());
    if !asked.text.is_empty() {
        return is_as_all_ask(alloc, version, words);
    }
    let Some((text, rest)) = more.split_first() else {
        return Ok(None);
    };
    if stands(alloc, asked.relation, version, text.as_slice())? != asked.wanted {
        return Ok(Some(false));
    }
    is_as_all_ask(alloc, version, rest)
}

/// Whether a version is as a value of KernelVersion with these words asks, if the value can be understood.
pub(crate) fn is_as_value_asks(
    alloc: Global,
    version: &[u8],
    words: &[Bytes],
    value: &[u8],
) -> Result<Option<bool>, AllocError>
    requires { words.now ≡ words_of Property value.now }
    ensures { IfOk result (λ holds. holds ≡ is_as_value_asks version.now value.now) }
{
    match is_as_words_ask(alloc, version, words)? {
        Some(true) if !is_whole(alloc, WordKind::Property, value)? => Ok(None),
        holds => Ok(holds),
    }
}
