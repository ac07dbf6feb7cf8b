//! Labels of security modules, in the order in which they are set.
ghost use Rattle.std.specs.Prelude.{◌≡◌, ◌<◌, ◌++◌, ◌∷◌, [], length, position, IfOk, IfSome, OnOk, OnErr};
ghost use Rattle.text_tables.specs.Pairs.{with_value};
ghost use Rattle.text_tables.specs.Texts.{same_text};

use std::alloc::{AllocError, Global};
use std::marker::Model;
use text_bytes::Bytes;

/// The label of a module.
#[derive(Drop)]
pub struct Label {
    name: Bytes,
    text: Bytes,
}

impl Model for Label {
    ghost use Rattle.text_tables.specs.Pairs.{Pair};

    ghost Value = { Pair };

    ghost view = { λ l. (l.name, l.text) };
}

impl Label {
    /// A label of a module.
    pub fn new(name: Bytes, text: Bytes) -> Label
        ensures { result ≡ (name, text) }
    {
        Label { name, text }
    }

    /// A label of a module, with a copy of its name.
    fn named(alloc: Global, name: &[u8], text: Bytes) -> Result<Label, AllocError>
        ensures { IfOk result (λ label. label ≡ (name.now, text)) }
    {
        Ok(Label::new(Bytes::copy_of(alloc, name)?, text))
    }

    /// Returns the name of the module.
    pub fn name(&self) -> &[u8]
        ensures { result.now ≡ self.now.0 }
    {
        self.name.as_slice()
    }

    /// Returns the text.
    pub fn text(&self) -> &[u8]
        ensures { result.now ≡ self.now.1 }
    {
        self.text.as_slice()
    }
}

/// Labels, in order.
#[derive(Drop)]
pub struct Labels {
    held: Vec<Label>,
}

impl Model for Labels {
    ghost use Rattle.std.specs.Prelude.{List};
    ghost use Rattle.text_tables.specs.Pairs.{Pair};

    ghost Value = { List Pair };

    ghost view = { λ l. l.held.items };
}

/// The place of the first label of a module, if there is one.
fn place_of(labels: &[Label], name: &[u8]) -> Option<usize>
    ensures value { result ≡ position (λ label. same_text name.now label.0) labels.now }
    ensures within { IfSome result (λ place. place < length labels.now) }
{
    labels.iter().position(|label| label.name() == name)
}

impl Labels {
    /// No labels.
    pub fn new(alloc: Global) -> Labels
        ensures { result ≡ [] }
    {
        Labels {
            held: Vec::new(alloc),
        }
    }

    /// Labels in the order of a list.
    pub fn from_vec(held: Vec<Label>) -> Labels
        ensures { result ≡ held.items }
    {
        Labels { held }
    }

    /// Returns the list.
    pub fn into_vec(self) -> Vec<Label>
        ensures { result.items ≡ self }
    {
        self.held
    }

    /// Returns the labels, in order.
    pub fn as_slice(&self) -> &[Label]
        ensures { result.now ≡ self.now }
    {
        &self.held
    }

    /// Removes all.
    pub fn clear(&mut self)
        ensures { self.new ≡ [] }
    {
        self.held.clear();
    }

    /// Adds the label of a module at the end, whatever labels the module has. If memory runs out, the labels stay as
    /// they are.
    pub fn push(&mut self, alloc: Global, name: &[u8], text: Bytes) -> Result<(), AllocError>
        ensures labels { OnOk result (self.new ≡ self.old ++ (name.now, text) ∷ []) }
        ensures refused { OnErr result (self.new ≡ self.old) }
    {
        let label = Label::named(alloc, name, text)?;
        self.held.push(label)?;
        Ok(())
    }

    /// Sets the label of a module: the first that the module has in its place, or a new one at the end. If memory
    /// runs out, the labels stay as they are.
    #[tactic(auto, using(crate::proofs::LabelPlaces::put_there))]
    pub fn put(&mut self, alloc: Global, name: &[u8], text: Bytes) -> Result<(), AllocError>
        ensures labels { OnOk result (self.new ≡ with_value self.old name.now text) }
        ensures refused { OnErr result (self.new ≡ self.old) }
    {
        let label = Label::named(alloc, name, text)?;
        match place_of(&self.held, name) {
            Some(place) => self.held[place] = label,
            None => self.held.push(label)?,
        }
        Ok(())
    }
}
