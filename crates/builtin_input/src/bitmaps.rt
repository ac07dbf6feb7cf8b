//! Bitmaps, as the kernel writes them.
ghost use Rattle.std.specs.Prelude.{◌≡◌, ◌≤◌, length, map, IfOk};
ghost use Rattle.std.specs.List.{slice_split};
ghost use Rattle.builtin_input.specs.Bitmaps.{bitmap, count_of, has, is_space, most_words, word};
ghost use Rattle.builtin_input.specs.Groups.{is_in};

use crate::groups::Group;
use builtin_devices::{Base, number_in};
use std::alloc::{AllocError, Global};
use std::marker::Model;

/// How many bits a word has.
const WORD_BITS: usize = 64;

/// The most words of a bitmap that count.
pub(crate) const MAX_WORDS: usize = 12;

/// A set of numbers below 768: keys, axes, events or properties.
#[derive(Drop)]
pub(crate) struct Bitmap {
    words: Vec<u64>,
}

impl Model for Bitmap {
    ghost use Rattle.std.specs.Prelude.{List, ℕ, ◌≤◌, length};
    ghost use Rattle.builtin_input.specs.Bitmaps.{most_words};

    ghost Value = { List ℕ };

    ghost view = { λ b. b.words.items };

    ghost invariant = { λ b. length b.words.items ≤ most_words };
}

/// A word of a bitmap.
#[tactic(auto, unfolding(crate::specs::Bitmaps::word))]
fn word(text: &[u8]) -> u64
    ensures { result ≡ word text.now }
{
    number_in(Base::Hexadecimal, u64::MAX, text).unwrap_or(0)
}

/// Whether a byte separates two words.
fn is_space(byte: u8) -> bool
    ensures { result ≡ is_space byte }
{
    byte == b' '
}

/// The words of a bitmap, in the order of the text.
fn words(alloc: Global, text: &[u8]) -> Result<Vec<u64>, AllocError>
    ensures { IfOk result (λ words. words.items ≡ map word (slice_split is_space text.now)) }
{
    text.split(|byte| is_space(*byte))
        .map(|text| word(text))
        .collect(alloc)
}

/// The words of a bitmap that count, the lowest first.
#[tactic(auto, unfolding(crate::specs::Bitmaps::bitmap))]
fn lowest_words(alloc: Global, text: &[u8], most: usize) -> Result<Vec<u64>, AllocError>
    ensures words { IfOk result (λ words. words.items ≡ bitmap most text.now) }
    ensures few { IfOk result (λ words. length words.items ≤ most) }
{
    let mut words = words(alloc, text)?;
    words.reverse();
    words.truncate(most);
    Ok(words)
}

impl Bitmap {
    /// The bitmap that a text writes, with at most so many words.
    pub(crate) fn read(alloc: Global, text: &[u8], most: usize) -> Result<Bitmap, AllocError>
        requires { most ≤ most_words }
        ensures { IfOk result (λ b. b ≡ bitmap most text.now) }
    {
        let words = lowest_words(alloc, text, most)?;
        Ok(Bitmap { words })
    }

    /// Whether a number is in it.
    #[tactic(auto, unfolding(crate::specs::Bitmaps::has))]
    pub(crate) fn has(&self, number: usize) -> bool
        ensures { result ≡ has self.now number }
    {
        match self.words.get(number / WORD_BITS) {
            Some(word) => (*word >> (number % WORD_BITS)) % 2 == 1,
            None => false,
        }
    }

    /// How many numbers of a group are in it.
    #[tactic(auto, unfolding(crate::specs::Bitmaps::count_of))]
    pub(crate) fn count(&self, group: Group) -> usize
        ensures value { result ≡ count_of (is_in group) self.now }
        ensures few { result ≤ 768 }
    {
        (0..WORD_BITS * self.words.len())
            .filter(|number| group.contains(*number) && self.has(*number))
            .count()
    }
}
