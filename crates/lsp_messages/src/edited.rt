//! A text that is changed row by row.
//!
//! Many changes of a message cost the length of the text once, and then each the rows that it touches and those between it
//! and the change before it.
ghost use Rattle.std.specs.Prelude.{◌≡◌, ◌≤◌, ◌<◌, ◌++◌, ◌∷◌, ◌-◌, ℕ, IfOk, OnOk, Some, drop, length, min, reverse, take};
ghost use Rattle.std.specs.List.{concat};
ghost use Rattle.lsp_messages.specs.TextChanges.{all_changed, changed};
ghost use Rattle.lsp_messages.specs.Whole.{in_order, whole_rows};

use crate::counting::Encoding;
use crate::rows::Position;
use crate::text_changes::{Change, changed};
use crate::whole_rows::{Row, WholeRows};
use std::alloc::{AllocError, Global};
use std::marker::Model;
use text_bytes::{Bytes, capped};

/// A text as its rows, each with the bytes that end it: those before a place in order, and those after it from the last
/// one to the first.
#[derive(Drop)]
struct Edited<'t> {
    before: Vec<Row<'t>>,
    after: Vec<Row<'t>>,
}

impl<'t> Model for Edited<'t> {
    ghost use Rattle.std.specs.List.{concat};
    ghost use Rattle.text_bytes.specs.Text.{Text};
    ghost use Rattle.lsp_messages.specs.Whole.{AreWhole, in_order};

    ghost Value = { Text };

    ghost view = { λ e. concat (in_order e.before.items e.after.items) };

    ghost invariant = { λ e. AreWhole (in_order e.before.items e.after.items) };
}

/// Adds copies of the rows of a text to others.
fn push_rows(alloc: Global, rows: &mut Vec<Row<'_>>, text: &[u8]) -> Result<(), AllocError>
    ensures { OnOk result (rows.new.items ≡ rows.old.items ++ whole_rows text.now) }
{
    for row in WholeRows::new(text) {
        rows.push(Row::copy_of(alloc, row.as_slice())?)?;
    }
    Ok(())
}

/// Moves the last rows of some to others, until there are no more of them than so many.
fn move_back<'t>(
    before: &mut Vec<Row<'t>>,
    after: &mut Vec<Row<'t>>,
    count: usize,
) -> Result<(), AllocError>
    ensures same { OnOk result (in_order before.new.items after.new.items ≡ in_order before.old.items after.old.items) }
    ensures count { OnOk result (length before.new.items ≡ min count (length before.old.items)) }
{
    while count < before.len() {
        if let Some(row) = before.pop() {
            after.push(row)?;
        }
    }
    Ok(())
}

/// Moves rows to the end of others, until there are so many of these or all.
fn move_on<'t>(
    before: &mut Vec<Row<'t>>,
    after: &mut Vec<Row<'t>>,
    count: usize,
) -> Result<(), AllocError>
    requires { length before.old.items ≤ count }
    ensures same { OnOk result (in_order before.new.items after.new.items ≡ in_order before.old.items after.old.items) }
    ensures count { OnOk result (length before.new.items ≡ min count (length (in_order before.old.items after.old.items))) }
{
    while before.len() < count {
        match after.pop() {
            None => return Ok(()),
            Some(row) => before.push(row)?,
        }
    }
    Ok(())
}

/// Moves rows, until there are so many before the place or all.
fn move_to<'t>(
    before: &mut Vec<Row<'t>>,
    after: &mut Vec<Row<'t>>,
    count: usize,
) -> Result<(), AllocError>
    ensures before { OnOk result (before.new.items ≡ take count (in_order before.old.items after.old.items)) }
    ensures after { OnOk result (reverse after.new.items ≡ drop count (in_order before.old.items after.old.items)) }
{
    move_back(before, after, count)?;
    move_on(before, after, count)
}

/// Takes away the first rows after the place, so many or all, and adds them to a text.
fn take_rows(text: &mut Vec<u8>, after: &mut Vec<Row<'_>>, count: usize) -> Result<(), AllocError>
    ensures taken { OnOk result (text.new.items ≡ text.old.items ++ concat (take count (reverse after.old.items))) }
    ensures left { OnOk result (reverse after.new.items ≡ drop count (reverse after.old.items)) }
{
    for _row in 0..count {
        match after.pop() {
            None => return Ok(()),
            Some(row) => text.extend_from_slice(row.as_slice())?,
        }
    }
    Ok(())
}

/// Adds rows to a text.
fn push_all(text: &mut Vec<u8>, rows: &[Row<'_>]) -> Result<(), AllocError>
    ensures { OnOk result (text.new.items ≡ text.old.items ++ concat rows.now) }
{
    for row in rows {
        text.extend_from_slice(row.as_slice())?;
    }
    Ok(())
}

/// The first row that a change touches: the one before that in which it begins, or the last one if it begins past all.
fn first_touched(line: u32, before: &[Row<'_>], after: &[Row<'_>]) -> usize
    ensures { result ≡ min line (length (in_order before.now after.now)) - 1 }
{
    let count = before.len().saturating_add(after.len());
    (line as usize).min(count).saturating_sub(1)
}

/// A position in the text that begins so many rows later.
fn later(position: Position, rows: usize) -> Position
    ensures { result ≡ record { line = position.line - rows; character = position.character } }
{
    Position {
        line: position.line.saturating_sub(capped(rows)),
        character: position.character,
    }
}

impl<'t> Edited<'t> {
    /// The rows of a text.
    fn new(alloc: Global, text: &'t [u8]) -> Result<Edited<'t>, AllocError>
        ensures { IfOk result (λ rows. rows ≡ text.now) }
    {
        let mut before = Vec::new(alloc);
        for row in WholeRows::new(text) {
            before.push(row)?;
        }
        let after = Vec::new(alloc);
        Ok(Edited { before, after })
    }

    /// The text after another one is put in place of what is in a range. The rows of the range are cut anew, and the one
    /// before them, too: what follows its carriage return may begin with a newline then.
    fn replaced(
        self,
        alloc: Global,
        encoding: Encoding,
        range: (Position, Position),
        text: &[u8],
    ) -> Result<Edited<'t>, AllocError>
        ensures { IfOk result (λ rows. rows ≡ changed encoding self.entry (record { range = Some range; text = text.now })) }
    {
        let Edited {
            mut before,
            mut after,
        } = self;
        let (start, end) = range;
        let first = first_touched(start.line, &before, &after);
        move_to(&mut before, &mut after, first)?;
        let count = start.line.max(end.line) as usize + 1 - first;
        let mut touched = Vec::new(alloc);
        take_rows(&mut touched, &mut after, count)?;
        let change = Change::new(Some((later(start, first), later(end, first))), text);
        let new = changed(alloc, encoding, &touched, &change)?;
        push_rows(alloc, &mut before, new.as_slice())?;
        Ok(Edited { before, after })
    }

    /// The text after a change.
    fn changed(
        self,
        alloc: Global,
        encoding: Encoding,
        change: &Change<'t>,
    ) -> Result<Edited<'t>, AllocError>
        ensures { IfOk result (λ rows. rows ≡ changed encoding self.entry change.now) }
    {
        match change.range() {
            None => Edited::new(alloc, change.text()),
            Some(range) => self.replaced(alloc, encoding, range, change.text()),
        }
    }

    /// The whole text.
    fn joined(self, alloc: Global) -> Result<Bytes, AllocError>
        ensures { IfOk result (λ text. text ≡ self.entry) }
    {
        let Edited { before, mut after } = self;
        let mut text = Vec::new(alloc);
        push_all(&mut text, &before)?;
        let count = after.len();
        take_rows(&mut text, &mut after, count)?;
        Ok(Bytes::new(text))
    }
}

/// A text after changes, one after another.
pub(crate) fn all_changed(
    alloc: Global,
    encoding: Encoding,
    text: &[u8],
    changes: &[Change<'_>],
) -> Result<Bytes, AllocError>
    ensures { IfOk result (λ after. after ≡ all_changed encoding text.now changes.now) }
{
    let mut rows = Edited::new(alloc, text)?;
    for change in changes {
        rows = rows.changed(alloc, encoding, change)?;
    }
    rows.joined(alloc)
}
