//! What an outline of a document lists.
ghost use Rattle.std.specs.Prelude.{◌≡◌, IfOk, OnOk, map, option_map};
ghost use Rattle.lsp_words.specs.Symbols.{is_shown, label_in, label_of, matched, record_symbol, rule_name, rule_symbol};
ghost use Rattle.lsp_words.specs.Symbols.{symbol_in, symbols_of, with_item};

use crate::marks::{MarkKind, mark_kind};
use crate::rows::{between, body, goes_on_after, tokens_in};
use rule_tokens::{Token, TokenFault};
use std::alloc::{AllocError, Global};
use text_bytes::{Bytes, FileKind, begins_with, capped, trimmed, unindented, up_to};

/// What an entry of an outline is.
#[derive(Clone, Copy, Debug, PartialEq, Eq)]
pub enum SymbolKind {
    /// A rule, named by its matches.
    Rule,
    /// A rule with a label, named by that.
    Label,
    /// A match of the hardware database, named by itself.
    Record,
}

/// An entry of an outline. Its name is never empty, and not only of whitespace.
#[derive(Drop)]
pub struct Symbol {
    /// What it is.
    pub kind: SymbolKind,
    /// The row in which it begins, counted from 0.
    pub line: u32,
    /// Its name.
    pub name: Bytes,
}

/// Whether a text can be shown as a name: it has more than whitespace.
fn is_shown(text: &[u8]) -> bool
    ensures { result ≡ is_shown text.now }
{
    !trimmed(unindented(text)).is_empty()
}

/// The label that an item of a row gives, if it gives one that can be shown.
#[tactic(auto, unfolding(crate::specs::Symbols::label_of))]
fn label_of<'t>(item: &Result<Token<'t>, TokenFault>) -> Option<&'t [u8]>
    ensures { option_map (λ t. t.now) result ≡ label_of item.now }
{
    let Ok(token) = item else {
        return None;
    };
    match mark_kind(token) {
        Some(MarkKind::Label) if is_shown(token.value()) => Some(token.value()),
        _ => None,
    }
}

/// The first label of a row that can be shown.
fn label_in(row: &[u8]) -> Option<&[u8]>
    ensures { option_map (λ t. t.now) result ≡ label_in row.now }
{
    for item in tokens_in(row) {
        let label = label_of(&item);
        if label.is_some() {
            return label;
        }
    }
    None
}

/// Adds an item of a row to a name of matches, if it is one, after `, ` if the name has others.
fn push_item(
    name: &mut Vec<u8>,
    row: &[u8],
    item: &Result<Token<'_>, TokenFault>,
) -> Result<(), AllocError>
    ensures { OnOk result (name.new.items ≡ with_item row.now name.old.items item.now) }
{
    let Ok(token) = item else {
        return Ok(());
    };
    if !token.operator().compares() {
        return Ok(());
    }
    if !name.is_empty() {
        name.extend_from_slice(b", ")?;
    }
    let span = token.span();
    name.extend_from_slice(between(span.start, span.end, row))
}

/// The matches of a row, as they are written, with `, ` in between.
#[tactic(auto, unfolding(crate::specs::Symbols::matched))]
fn matched(alloc: Global, row: &[u8]) -> Result<Vec<u8>, AllocError>
    ensures { IfOk result (λ name. name.items ≡ matched row.now) }
{
    let mut name = Vec::new(alloc);
    for item in tokens_in(row) {
        push_item(&mut name, row, &item)?;
    }
    Ok(name)
}

/// The name of a rule: its matches in the row, or else the row.
fn rule_name(alloc: Global, row: &[u8]) -> Result<Bytes, AllocError>
    ensures { IfOk result (λ name. name ≡ rule_name row.now) }
{
    let name = matched(alloc, row)?;
    if name.is_empty() {
        return Bytes::copy_of(alloc, trimmed(unindented(body(row))));
    }
    Ok(Bytes::new(name))
}

/// The entry of a row in which a rule begins.
fn rule_symbol(alloc: Global, line: u32, row: &[u8]) -> Result<Symbol, AllocError>
    ensures { IfOk result (λ symbol. symbol ≡ rule_symbol line row.now) }
{
    match label_in(row) {
        Some(label) => Ok(Symbol {
            kind: SymbolKind::Label,
            line,
            name: Bytes::copy_of(alloc, label)?,
        }),
        None => Ok(Symbol {
            kind: SymbolKind::Rule,
            line,
            name: rule_name(alloc, row)?,
        }),
    }
}

/// The entry of a row of a database file, if it is a match: it is named by the row without its comment, and without the
/// whitespace before that.
#[tactic(auto, unfolding(crate::specs::Symbols::record_symbol))]
fn record_symbol(alloc: Global, line: u32, row: &[u8]) -> Result<Option<Symbol>, AllocError>
    ensures { IfOk result (λ symbol. symbol ≡ record_symbol line row.now) }
{
    let name = trimmed(up_to(b'#', row));
    if begins_with(b' ', row) || begins_with(b'\t', row) || !is_shown(name) {
        return Ok(None);
    }
    Ok(Some(Symbol {
        kind: SymbolKind::Record,
        line,
        name: Bytes::copy_of(alloc, name)?,
    }))
}

/// The entry of a row, if it has one. `goes_on` says whether a rule goes on in the row.
///
/// In a rules file a rule is an entry in the row in which it begins, named by its label, else by its matches in that row
/// with `, ` in between, else by the row. In a database file a match is one, named by itself without its comment.
#[tactic(auto, unfolding(crate::specs::Symbols::begun_rule))]
fn symbol_in_row(
    alloc: Global,
    kind: FileKind,
    line: u32,
    goes_on: bool,
    row: &[u8],
) -> Result<Option<Symbol>, AllocError>
    ensures { IfOk result (λ symbol. symbol ≡ symbol_in kind line goes_on row.now) }
{
    match kind {
        FileKind::Hwdb => record_symbol(alloc, line, row),
        FileKind::Rules => {
            if goes_on {
                return Ok(None);
            }
            if !is_shown(body(row)) {
                return Ok(None);
            }
            Ok(Some(rule_symbol(alloc, line, row)?))
        }
    }
}

/// The entries of all rows of a document, in order. Rows are counted from 0, up to 2^32 - 1.
#[tactic(auto, unfolding(crate::specs::Symbols::symbols_of))]
pub fn symbols_of(alloc: Global, kind: FileKind, rows: &[&[u8]]) -> Result<Vec<Symbol>, AllocError>
    ensures { IfOk result (λ symbols. symbols.items ≡ symbols_of kind (map (λ r. r.now) rows.now)) }
{
    let mut symbols = Vec::new(alloc);
    let mut goes_on = false;
    for (index, row) in rows.iter().enumerate() {
        if let Some(symbol) = symbol_in_row(alloc, kind, capped(index), goes_on, row)? {
            symbols.push(symbol)?;
        }
        goes_on = goes_on_after(goes_on, row);
    }
    Ok(symbols)
}
