//! Changes of a text.
ghost use Rattle.std.specs.Prelude.{◌≡◌, IfOk};
ghost use Rattle.lsp_messages.specs.TextChanges.{changed};

use crate::counting::Encoding;
use crate::rows::{Position, Rows};
use std::alloc::{AllocError, Global};
use std::marker::Model;
use text_bytes::Bytes;

/// A text in place of what is in a range, or of all.
#[derive(Drop)]
pub struct Change<'c> {
    range: Option<(Position, Position)>,
    text: &'c [u8],
}

impl<'c> Model for Change<'c> {
    ghost use Rattle.lsp_messages.specs.ChangeValues.{ChangeValue};

    ghost Value = { ChangeValue };

    ghost view = { λ c. record { range = c.range; text = c.text.now } };
}

impl<'c> Change<'c> {
    /// A text in place of what is in a range, from a position up to another one, or of all.
    pub fn new(range: Option<(Position, Position)>, text: &'c [u8]) -> Change<'c>
        ensures { result ≡ record { range = range; text = text.now } }
    {
        Change { range, text }
    }

    /// Returns the range, if there is one.
    pub fn range(&self) -> Option<(Position, Position)>
        ensures { result ≡ self.now.range }
    {
        self.range
    }

    /// Returns the text.
    pub fn text(&self) -> &'c [u8]
        ensures { result.now ≡ self.now.text }
    {
        self.text
    }
}

/// A text after a change. Without a range all of it is replaced.
pub(crate) fn changed(
    alloc: Global,
    encoding: Encoding,
    text: &[u8],
    change: &Change<'_>,
) -> Result<Bytes, AllocError>
    ensures { IfOk result (λ after. after ≡ changed encoding text.now change.now) }
{
    let Some((start, end)) = change.range() else {
        return Bytes::copy_of(alloc, change.text());
    };
    let rows = Rows::new(alloc, text)?;
    let from = rows.offset(encoding, start);
    let to = rows.offset(encoding, end);
    let mut after = Vec::from_slice(alloc, &text[..from])?;
    after.extend_from_slice(change.text())?;
    after.extend_from_slice(&text[from.max(to)..])?;
    Ok(Bytes::new(after))
}
