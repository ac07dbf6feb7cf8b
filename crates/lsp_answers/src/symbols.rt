//! The rules or records of a document.
ghost use Rattle.std.specs.Prelude.{◌≡◌, ◌++◌, OnOk, map};
ghost use Rattle.json.specs.Tree.{json_tokens};
ghost use Rattle.text_json.specs.Listed.{value_tokens};
ghost use Rattle.lsp_answers.specs.Queries.{shown};
ghost use Rattle.lsp_answers.specs.Symbols.{symbol_number, symbol_value, symbols};

use crate::documents::kind_of;
use crate::labels::{row_numbered, rows_of};
use crate::queries::Query;
use crate::spots::write_row_range;
use json::Writer;
use lsp_messages::Encoding;
use lsp_words::{Symbol, SymbolKind, symbols_of};
use std::alloc::{AllocError, Global};
use text_json::{write_number, write_told};

/// The number by which the protocol knows a kind of symbols.
fn symbol_number(kind: SymbolKind) -> u32
    ensures { result ≡ symbol_number kind }
{
    match kind {
        SymbolKind::Rule => 24,
        SymbolKind::Label => 20,
        SymbolKind::Record => 19,
    }
}

/// Writes a symbol.
#[tactic(auto, unfolding(crate::specs::Symbols::symbol_value))]
fn write_symbol(
    alloc: Global,
    writer: &mut Writer,
    encoding: Encoding,
    rows: &[&[u8]],
    symbol: &Symbol,
) -> Result<(), AllocError>
    ensures tokens { OnOk result (writer.new.tokens
        ≡ writer.old.tokens ++ json_tokens (symbol_value encoding (map (λ r. r.now) rows.now) symbol.now)) }
    ensures before { OnOk result (writer.new.before ≡ writer.old.before) }
{
    let line = symbol.line;
    let row = row_numbered(rows, line);
    writer.begin_object()?;
    write_told(alloc, writer, "name", symbol.name.as_slice())?;
    write_number(writer, "kind", symbol_number(symbol.kind))?;
    writer.key("range")?;
    write_row_range(writer, encoding, line, row, 0, row.len())?;
    writer.key("selectionRange")?;
    write_row_range(writer, encoding, line, row, 0, row.len())?;
    writer.end_object()?;
    Ok(())
}

/// Writes symbols one after another.
fn write_each(
    alloc: Global,
    writer: &mut Writer,
    encoding: Encoding,
    rows: &[&[u8]],
    symbols: &[Symbol],
) -> Result<(), AllocError>
    ensures tokens { OnOk result (writer.new.tokens
        ≡ writer.old.tokens ++ value_tokens (map (symbol_value encoding (map (λ r. r.now) rows.now)) symbols.now)) }
    ensures before { OnOk result (writer.new.before ≡ writer.old.before) }
{
    for symbol in symbols {
        write_symbol(alloc, writer, encoding, rows, symbol)?;
    }
    Ok(())
}

/// Writes the answer to a request for the rules or records of a document.
#[tactic(auto, unfolding(crate::specs::Symbols::symbols))]
pub(crate) fn write_symbols(
    alloc: Global,
    writer: &mut Writer,
    encoding: Encoding,
    query: &Query<'_>,
) -> Result<(), AllocError>
    ensures tokens { OnOk result (writer.new.tokens ≡ writer.old.tokens ++ json_tokens (symbols encoding (shown query.now))) }
    ensures before { OnOk result (writer.new.before ≡ writer.old.before) }
{
    let rows = rows_of(alloc, query.text)?;
    let symbols = symbols_of(alloc, kind_of(query.uri.as_bytes()), &rows)?;
    writer.begin_array()?;
    write_each(alloc, writer, encoding, &rows, &symbols)?;
    writer.end_array()?;
    Ok(())
}
