//! The names of the properties of a record.
ghost use Rattle.std.specs.Prelude.{◌≡◌, [], IfOk, OnOk};
ghost use Rattle.text_tables.specs.Texts.{is_among, with_text};

use std::alloc::{AllocError, Global};
use std::marker::Model;
use text_tables::Texts;

/// Names, each once, in the order in which they came. Most records have one property, so that the first name takes no
/// memory.
#[derive(Drop)]
pub(crate) struct RecordKeys<'a> {
    first: Option<&'a [u8]>,
    others: Texts<'a>,
}

impl<'a> Model for RecordKeys<'a> {
    ghost use Rattle.std.specs.Prelude.{List, ◌||◌, ◌++◌, IsTrue, is_some, option_map, option_to_list};
    ghost use Rattle.text_bytes.specs.Text.{Text};
    ghost use Rattle.text_bytes.specs.Texts.{is_empty};

    ghost Value = { List Text };

    ghost view = { λ k. option_to_list (option_map (λ name. name.now) k.first) ++ k.others };

    ghost invariant = { λ k. IsTrue (is_some k.first || is_empty k.others) };
}

impl<'a> RecordKeys<'a> {
    /// No names.
    pub(crate) fn new(alloc: Global) -> RecordKeys<'a>
        ensures { result ≡ [] }
    {
        RecordKeys {
            first: None,
            others: Texts::new(alloc),
        }
    }

    /// Adds a name, and returns whether it was there.
    pub(crate) fn add(&mut self, name: &'a [u8]) -> Result<bool, AllocError>
        ensures known { IfOk result (λ known. known ≡ is_among self.old name.now) }
        ensures names { OnOk result (self.new ≡ with_text self.old name.now) }
    {
        let first = self.first;
        match first {
            None => {
                self.first = Some(name);
                Ok(false)
            }
            Some(first) if first == name => Ok(true),
            Some(_) => {
                let new = self.others.add(name)?;
                Ok(!new)
            }
        }
    }
}
