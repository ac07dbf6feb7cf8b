//! Borrowed texts, each once.
ghost use Rattle.std.specs.Prelude.{◌≡◌, [], not, map, IfOk, OnOk, OnErr};
ghost use Rattle.text_tables.specs.Texts.{is_among, with_text, AreOnce};

use indexmap::IndexSet;
use std::alloc::{AllocError, Global};
use std::marker::Model;

/// Borrowed texts in the order in which they came, each once.
#[derive(Drop)]
pub struct Texts<'a> {
    held: IndexSet<&'a [u8]>,
}

impl<'a> Model for Texts<'a> {
    ghost use Rattle.std.specs.Prelude.{List, map};
    ghost use Rattle.text_bytes.specs.Text.{Text};

    ghost Value = { List Text };

    ghost view = { λ t. map (λ k. k.now) t.held.keys };
}

impl<'a> Texts<'a> {
    /// No texts.
    pub fn new(alloc: Global) -> Texts<'a>
        ensures { result ≡ [] }
    {
        Texts {
            held: IndexSet::new(alloc),
        }
    }

    /// The texts of a set, without a copy.
    pub fn from_set(held: IndexSet<&'a [u8]>) -> Texts<'a>
        ensures { result ≡ map (λ k. k.now) held.entry.keys }
    {
        Texts { held }
    }

    /// Returns the set.
    pub fn into_set(self) -> IndexSet<&'a [u8]>
        ensures { map (λ k. k.now) result.keys ≡ self.entry }
    {
        let Texts { held } = self;
        held
    }

    /// Returns the set.
    pub fn as_set(&self) -> &IndexSet<&'a [u8]>
        ensures { map (λ k. k.now) result.now.keys ≡ self.now }
    {
        &self.held
    }

    /// Returns the texts, in their order; none is there twice.
    pub fn as_slice(&self) -> &[&'a [u8]]
        ensures texts { map (λ k. k.now) result.now ≡ self.now }
        ensures once { AreOnce self.now }
    {
        self.held.as_slice()
    }

    /// Whether a text is among them.
    pub fn contains(&self, text: &[u8]) -> bool
        ensures { result ≡ is_among self.now text.now }
    {
        self.held.contains(text)
    }

    /// Adds a text at the end, and returns whether it is new; one that is there stays alone. If
    /// memory runs out, the texts stay as they are.
    pub fn add(&mut self, text: &'a [u8]) -> Result<bool, AllocError>
        ensures new { IfOk result (λ new. new ≡ not (is_among self.old text.now)) }
        ensures texts { OnOk result (self.new ≡ with_text self.old text.now) }
        ensures refused { OnErr result (self.new ≡ self.old) }
    {
        let new = self.held.insert(text)?;
        Ok(new)
    }
}
