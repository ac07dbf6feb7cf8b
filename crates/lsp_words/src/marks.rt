//! The labels of a rules file and the jumps to them.
ghost use Rattle.std.specs.Prelude.{◌≡◌, ◌++◌, IfOk, OnOk, map, option_map};
ghost use Rattle.lsp_words.specs.Marks.{mark_kind, mark_of, marks_in, marks_of, rule_of};

use crate::rows::{goes_on_after, tokens_in};
use rule_tokens::{Operator, Token, TokenFault};
use std::alloc::{AllocError, Global};
use std::marker::Model;
use text_bytes::capped;

/// What names a place in a rules file.
#[derive(Clone, Copy, Debug, PartialEq, Eq)]
pub enum MarkKind {
    /// `LABEL="x"`: a place to which rules above can jump.
    Label,
    /// `GOTO="x"`: a jump to the next such place.
    Goto,
}

/// A label or a jump of a rules file: the token `LABEL="x"` or `GOTO="x"`. It borrows its row.
#[derive(Drop)]
pub struct Mark<'t> {
    /// Whether it is a label or a jump.
    pub(crate) kind: MarkKind,
    /// The row in which its rule begins, counted from 0.
    pub(crate) rule: u32,
    line: u32,
    start: usize,
    end: usize,
    /// The bytes between its quotes, as they are written.
    pub(crate) name: &'t [u8],
}

impl<'t> Model for Mark<'t> {
    ghost use Rattle.lsp_words.specs.Marks.{MarkValue};

    ghost Value = { MarkValue };

    ghost view = { λ m. record { kind = m.kind; rule = m.rule; line = m.line; start = m.start; end = m.end; name = m.name.now } };
}

impl<'t> Mark<'t> {
    /// The row in which it stands, counted from 0.
    pub fn line(&self) -> u32
        ensures { result ≡ self.now.line }
    {
        self.line
    }

    /// Where its name begins, in bytes from the start of its row.
    pub fn start(&self) -> usize
        ensures { result ≡ self.now.start }
    {
        self.start
    }

    /// Where its name ends, in bytes from the start of its row: the place of the closing quote.
    pub fn end(&self) -> usize
        ensures { result ≡ self.now.end }
    {
        self.end
    }
}

/// Which mark a token is, if it is one: it has `=`, and nothing in braces.
#[tactic(auto, unfolding(crate::specs::Marks::mark_kind))]
pub(crate) fn mark_kind(token: &Token<'_>) -> Option<MarkKind>
    ensures { result ≡ mark_kind token.now.parts.head }
{
    if token.attribute().is_some() {
        return None;
    }
    let Operator::Assign = token.operator() else {
        return None;
    };
    let key = token.key();
    if key == b"LABEL".as_slice() {
        Some(MarkKind::Label)
    } else if key == b"GOTO".as_slice() {
        Some(MarkKind::Goto)
    } else {
        None
    }
}

/// The mark that an item of a row is, if it is one.
fn mark_of<'t>(rule: u32, line: u32, item: Result<Token<'t>, TokenFault>) -> Option<Mark<'t>>
    ensures { result ≡ mark_of rule line item.entry }
{
    let Ok(token) = item else {
        return None;
    };
    let kind = mark_kind(&token)?;
    let name = token.value();
    let end = token.span().end.saturating_sub(1);
    Some(Mark {
        kind,
        rule,
        line,
        start: end.saturating_sub(name.len()),
        end,
        name,
    })
}

/// Adds the marks of a row, of a rule that begins in the row `rule`. Nothing is read after a part that is no token, and a
/// comment has no marks.
#[tactic(auto, unfolding(crate::specs::Marks::marks_in))]
fn push_marks<'t>(
    marks: &mut Vec<Mark<'t>>,
    rule: u32,
    line: u32,
    row: &'t [u8],
) -> Result<(), AllocError>
    ensures { OnOk result (marks.new.items ≡ marks.old.items ++ marks_in rule line row.now) }
{
    for item in tokens_in(row) {
        if let Some(mark) = mark_of(rule, line, item) {
            marks.push(mark)?;
        }
    }
    Ok(())
}

/// The row in which the rule of a row begins: the row itself, unless a rule that began earlier goes on in it.
fn rule_of(goes_on: bool, rule: u32, line: u32) -> u32
    ensures { result ≡ rule_of goes_on rule line }
{
    if goes_on { rule } else { line }
}

/// The marks of all rows of a document, in order. Rows are counted from 0, up to 2^32 - 1.
#[tactic(auto, unfolding(crate::specs::Marks::marks_of))]
pub fn marks_of<'t>(alloc: Global, rows: &[&'t [u8]]) -> Result<Vec<Mark<'t>>, AllocError>
    ensures { IfOk result (λ marks. marks.items ≡ marks_of (map (λ r. r.now) rows.now)) }
{
    let mut marks = Vec::new(alloc);
    let mut rule = 0;
    let mut goes_on = false;
    for (index, row) in rows.iter().enumerate() {
        let line = capped(index);
        rule = rule_of(goes_on, rule, line);
        push_marks(&mut marks, rule, line, row)?;
        goes_on = goes_on_after(goes_on, row);
    }
    Ok(marks)
}
