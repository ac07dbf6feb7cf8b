//! What comes before a line in its file.
ghost use Rattle.std.specs.Prelude.{◌≡◌, [], IfOk, OnOk};
ghost use Rattle.text_tables.specs.Texts.{is_among, with_text};

use crate::record_keys::RecordKeys;
use std::alloc::{AllocError, Global};
use std::marker::Model;
use text_tables::Texts;

/// The matches of the file and the keys of the record that come before a line.
#[derive(Drop)]
pub(crate) struct Before<'a> {
    matches: Texts<'a>,
    keys: RecordKeys<'a>,
}

impl<'a> Model for Before<'a> {
    ghost use Rattle.hwdb_core.specs.Lints as lints;

    ghost Value = { lints.Before };

    ghost view = { λ b. record { matches = b.matches; keys = b.keys } };
}

impl<'a> Before<'a> {
    /// Nothing.
    pub(crate) fn new(alloc: Global) -> Before<'a>
        ensures { result ≡ record { matches = []; keys = [] } }
    {
        Before {
            matches: Texts::new(alloc),
            keys: RecordKeys::new(alloc),
        }
    }

    /// Ends the record.
    pub(crate) fn end_record(&mut self, alloc: Global)
        ensures { self.new ≡ record { matches = self.old.matches; keys = [] } }
    {
        self.keys = RecordKeys::new(alloc);
    }

    /// Adds a match, which ends the properties before it, and returns whether the file has it already.
    pub(crate) fn add_match(&mut self, alloc: Global, text: &'a [u8]) -> Result<bool, AllocError>
        ensures known { IfOk result (λ known. known ≡ is_among self.old.matches text.now) }
        ensures after { OnOk result (self.new ≡ record { matches = with_text self.old.matches text.now; keys = [] }) }
    {
        let new = self.matches.add(text)?;
        self.keys = RecordKeys::new(alloc);
        Ok(!new)
    }

    /// Adds the key of a property, and returns whether the record has it already.
    pub(crate) fn add_key(&mut self, key: &'a [u8]) -> Result<bool, AllocError>
        ensures known { IfOk result (λ known. known ≡ is_among self.old.keys key.now) }
        ensures after { OnOk result (self.new ≡ record { matches = self.old.matches; keys = with_text self.old.keys key.now }) }
    {
        self.keys.add(key)
    }
}
