//! Owned texts, each once: what rules add and remove.
ghost use Rattle.std.specs.Prelude.{◌≡◌, [], map, OnOk, OnErr};
ghost use Rattle.text_tables.specs.Texts.{is_among, with_text, with_texts, without_text, AddsFirst, AreOnce};

use crate::texts::Texts;
use indexmap::IndexSet;
use std::alloc::{AllocError, Global};
use std::marker::Model;

/// Texts of its own in the order in which they came, each once.
#[derive(Drop)]
pub struct OwnedTexts {
    held: IndexSet<Vec<u8>>,
}

impl Model for OwnedTexts {
    ghost use Rattle.std.specs.Prelude.{List, map};
    ghost use Rattle.text_bytes.specs.Text.{Text};

    ghost Value = { List Text };

    ghost view = { λ t. map (λ k. k.items) t.held.keys };
}

impl OwnedTexts {
    /// No texts.
    pub fn new(alloc: Global) -> OwnedTexts
        ensures { result ≡ [] }
    {
        OwnedTexts {
            held: IndexSet::new(alloc),
        }
    }

    /// The texts of a set, without a copy.
    pub fn from_set(held: IndexSet<Vec<u8>>) -> OwnedTexts
        ensures { result ≡ map (λ k. k.items) held.keys }
    {
        OwnedTexts { held }
    }

    /// Returns the set.
    pub fn into_set(self) -> IndexSet<Vec<u8>>
        ensures { map (λ k. k.items) result.keys ≡ self }
    {
        let OwnedTexts { held } = self;
        held
    }

    /// Returns the set, whose order is that of the texts.
    pub fn as_set(&self) -> &IndexSet<Vec<u8>>
        ensures { map (λ k. k.items) result.now.keys ≡ self.now }
    {
        &self.held
    }

    /// Returns the texts, in their order; none is there twice.
    pub fn as_slice(&self) -> &[Vec<u8>]
        ensures texts { map (λ k. k.items) result.now ≡ self.now }
        ensures once { AreOnce self.now }
    {
        self.held.as_slice()
    }

    /// Whether a text is among them.
    pub fn contains(&self, text: &[u8]) -> bool
        ensures { result ≡ is_among self.now text.now }
    {
        self.held.contains(text)
    }

    /// Adds a copy of a text at the end, unless it is there. If memory runs out, the texts stay
    /// as they are.
    pub fn add(&mut self, alloc: Global, text: &[u8]) -> Result<(), AllocError>
        ensures texts { OnOk result (self.new ≡ with_text self.old text.now) }
        ensures refused { OnErr result (self.new ≡ self.old) }
    {
        let text = Vec::from_slice(alloc, text)?;
        self.held.insert(text)?;
        Ok(())
    }

    /// Adds each of these texts, in their order. If memory runs out, the first so many are
    /// added, perhaps none, and the others are not.
    pub fn add_all(&mut self, alloc: Global, texts: &Texts<'_>) -> Result<(), AllocError>
        ensures texts { OnOk result (self.new ≡ with_texts self.old texts.now) }
        ensures refused { OnErr result (AddsFirst self.old texts.now self.new) }
    {
        for text in texts.as_slice() {
            self.add(alloc, text)?;
        }
        Ok(())
    }

    /// Takes a text away; the others keep their order.
    pub fn remove(&mut self, text: &[u8])
        ensures { self.new ≡ without_text self.old text.now }
    {
        self.held.shift_remove(text);
    }

    /// Takes all texts away.
    pub fn clear(&mut self)
        ensures { self.new ≡ [] }
    {
        self.held.clear();
    }
}
