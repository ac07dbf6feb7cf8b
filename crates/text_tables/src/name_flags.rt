//! Flags of names, by which most names that a table does not hold are told at once.
//!
//! Rules ask for many properties that no device has. Each name has a number, of its length and three of its bytes, and
//! each number has a flag. Two names may have the same number, so a flag that is set says nothing; but if it is not set,
//! no name with this number was marked.
ghost use Rattle.std.specs.Prelude.{◌≡◌, ◌<◌};
ghost use Rattle.text_tables.specs.NameFlags.{is_lacking, none_set, number_of, with_name};

use std::marker::Model;

/// How many numbers there are. With twice as many a table would be too large to be moved without a call.
const NUMBERS: usize = 128;

/// How many flags a word has.
const WORD_LEN: usize = 64;

/// The number of a name. The factors spread the names that rules use.
#[tactic(auto, unfolding(crate::specs::NameFlags::number_of))]
fn number_of(name: &[u8]) -> usize
    ensures value { result ≡ number_of name.now }
    ensures within { result < 128 }
{
    let len = name.len();
    if len == 0 {
        return 0;
    }
    let last = name[len - 1] as usize;
    let middle = name[len / 2] as usize;
    let early = name[len / 4] as usize;
    (len % NUMBERS * 43 + last + middle * 91 + early * 77) % NUMBERS
}

/// A flag for each number, set or not.
#[derive(Drop)]
pub(crate) struct NameFlags {
    words: [u64; NUMBERS / WORD_LEN],
}

impl Model for NameFlags {
    ghost use Rattle.std.specs.Prelude.{List, ℕ};

    ghost Value = { List ℕ };

    ghost view = { λ f. f.words };
}

impl NameFlags {
    /// Flags, none of which is set.
    pub(crate) fn none() -> NameFlags
        ensures { result ≡ none_set }
    {
        NameFlags {
            words: [0; NUMBERS / WORD_LEN],
        }
    }

    /// Sets the flag of a name.
    pub(crate) fn mark(&mut self, name: &[u8])
        ensures { self.new ≡ with_name self.old name.now }
    {
        let number = number_of(name);
        self.words[number / WORD_LEN] |= 1 << (number % WORD_LEN);
    }

    /// Whether the flag of a name is not set, so that the name was not marked.
    pub(crate) fn lacks(&self, name: &[u8]) -> bool
        ensures { result ≡ is_lacking self.now name.now }
    {
        let number = number_of(name);
        (self.words[number / WORD_LEN] >> (number % WORD_LEN)) & 1 == 0
    }
}
