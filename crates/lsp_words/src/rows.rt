//! A row by itself.
ghost use Rattle.std.specs.Prelude.{◌≡◌, ◌≤◌, length};
ghost use Rattle.std.specs.List.{prefix_len};
ghost use Rattle.rule_tokens.specs.Grammar.{is_gap_byte};
ghost use Rattle.lsp_words.specs.Rows.{between, body, goes_on_after, is_comment, items_in};

use rule_tokens::Tokens;
use text_bytes::{begins_with, ends_in, is_blank, unindented, without_last};

/// Whether a row is a comment: its first byte that is no blank is `#`.
fn is_comment(row: &[u8]) -> bool
    ensures { result ≡ is_comment row.now }
{
    begins_with(b'#', unindented(row))
}

/// What a row adds to its rule: nothing if it is a comment, else all but the backslash with which the rule goes on in the
/// next row.
pub(crate) fn body(row: &[u8]) -> &[u8]
    ensures { result.now ≡ body row.now }
{
    if is_comment(row) {
        return &[];
    }
    if ends_in(b'\\', row) {
        return without_last(row);
    }
    row
}

/// Whether a rule goes on after a row: the row ends in a backslash. A comment changes nothing, so that a rule may go on
/// after it; `before` says whether one went on before the row.
pub(crate) fn goes_on_after(before: bool, row: &[u8]) -> bool
    ensures { result ≡ goes_on_after before row.now }
{
    if is_comment(row) {
        return before;
    }
    ends_in(b'\\', row)
}

/// Whether a byte is a comma, a space or a tab.
fn is_gap_byte(byte: u8) -> bool
    ensures { result ≡ is_gap_byte byte }
{
    byte == b',' || is_blank(byte)
}

/// How many commas and blanks a text begins with.
fn gap_length(text: &[u8]) -> usize
    ensures value { result ≡ prefix_len is_gap_byte text.now }
    ensures within { result ≤ length text.now }
{
    text.iter().take_while(|byte| is_gap_byte(**byte)).count()
}

/// The tokens of a row in turn, and the fault that ends them, if one does. Commas and blanks may come first.
#[tactic(auto, unfolding(crate::specs::Rows::items_in))]
pub(crate) fn tokens_in(row: &[u8]) -> Tokens<'_>
    ensures { result ≡ items_in row.now }
{
    let body = body(row);
    Tokens::from_place(body, gap_length(body))
}

/// The bytes of a text from a place up to another one, as many as there are.
pub(crate) fn between(from: usize, to: usize, text: &[u8]) -> &[u8]
    ensures { result.now ≡ between from to text.now }
{
    let rest = &text[from.min(text.len())..];
    &rest[..to.saturating_sub(from).min(rest.len())]
}
