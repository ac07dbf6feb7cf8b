//! The rows of a text, each with the bytes that end it.
ghost use Rattle.std.specs.Prelude.{◌≡◌, ◌≤◌, ◌<◌, ◌∷◌, drop, length, take, IfOk};
ghost use Rattle.lsp_messages.specs.Whole.{whole_rows};

use crate::rows::ends_row;
use std::alloc::{AllocError, Global};
use std::borrow::CowSlice;
use std::marker::Model;

/// A row with the bytes that end it, borrowed from its text or made.
#[derive(Drop)]
pub(crate) struct Row<'t> {
    bytes: CowSlice<'t, u8>,
}

impl<'t> Model for Row<'t> {
    ghost use Rattle.std.specs.Cow.{cow_slice_items};
    ghost use Rattle.text_bytes.specs.Text.{Text};

    ghost Value = { Text };

    ghost view = { λ r. cow_slice_items r.bytes };
}

impl<'t> Row<'t> {
    /// Returns the bytes.
    pub(crate) fn as_slice(&self) -> &[u8]
        ensures { result.now ≡ self.now }
    {
        self.bytes.as_slice()
    }

    /// A row with a copy of these bytes.
    pub(crate) fn copy_of(alloc: Global, bytes: &[u8]) -> Result<Row<'t>, AllocError>
        ensures { IfOk result (λ row. row ≡ bytes.now) }
    {
        let bytes = CowSlice::Owned(Vec::from_slice(alloc, bytes)?);
        Ok(Row { bytes })
    }
}

/// How many bytes the row at the front of a text has, with those that end it.
fn whole_row_len(text: &[u8]) -> usize
    ensures row { 0 < length text.now → whole_rows text.now ≡ take result text.now ∷ whole_rows (drop result text.now) }
    ensures some { 0 < length text.now → 0 < result }
    ensures within { result ≤ length text.now }
{
    for at in 0..text.len() {
        if ends_row(text, at) {
            return at + 1;
        }
    }
    text.len()
}

/// The rows of a text in turn.
#[derive(Drop)]
pub(crate) struct WholeRows<'t> {
    rest: &'t [u8],
}

impl<'t> Model for WholeRows<'t> {
    ghost use Rattle.std.specs.Prelude.{List};
    ghost use Rattle.text_bytes.specs.Text.{Text};
    ghost use Rattle.lsp_messages.specs.Whole.{whole_rows};

    ghost Value = { List Text };

    ghost view = { λ r. whole_rows r.rest.now };
}

impl<'t> WholeRows<'t> {
    /// The rows of a text.
    pub(crate) fn new(text: &'t [u8]) -> WholeRows<'t>
        ensures { result ≡ whole_rows text.now }
    {
        WholeRows { rest: text }
    }
}

impl<'t> Iterator for WholeRows<'t> {
    type Item = Row<'t>;

    ghost use Rattle.std.specs.Iterator.{YieldsFirst, item_count};

    ghost next_gives = { YieldsFirst (λ rows. rows) };

    ghost remaining = { item_count (λ rows. rows) };

    fn next(&mut self) -> Option<Row<'t>> {
        if self.rest.is_empty() {
            return None;
        }
        let (row, rest) = self.rest.split_at(whole_row_len(self.rest));
        self.rest = rest;
        let bytes = CowSlice::Borrowed(row);
        Some(Row { bytes })
    }
}
