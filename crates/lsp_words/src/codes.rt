//! The code at a place of a comment.
ghost use Rattle.std.specs.Prelude.{◌≡◌, ◌≤◌, IfSome, length};
ghost use Rattle.std.specs.Char.{is_ascii_alphanumeric};
ghost use Rattle.std.specs.List.{prefix_len, suffix_len};
ghost use Rattle.lsp_words.specs.Codes.{code_at, is_code, is_comment};

use text_bytes::{FileKind, begins_with, is_decimal, unindented};

/// Where a code stands in a row.
#[derive(Clone, Copy, PartialEq, Eq)]
pub struct CodeWord {
    /// The place of its letter, in bytes from the row's start.
    pub start: usize,
    /// The place after its last digit.
    pub end: usize,
}

/// How many letters and digits a text ends in.
fn trailing(text: &[u8]) -> usize
    ensures value { result ≡ suffix_len is_ascii_alphanumeric text.now }
    ensures within { result ≤ length text.now }
{
    text.iter()
        .rev()
        .take_while(|byte| byte.is_ascii_alphanumeric())
        .count()
}

/// How many letters and digits a text begins with.
fn leading(text: &[u8]) -> usize
    ensures value { result ≡ prefix_len is_ascii_alphanumeric text.now }
    ensures within { result ≤ length text.now }
{
    text.iter()
        .take_while(|byte| byte.is_ascii_alphanumeric())
        .count()
}

/// Whether a word is written like a code: a capital letter and a number.
fn is_code(word: &[u8]) -> bool
    ensures { result ≡ is_code word.now }
{
    match word.split_first() {
        None => false,
        Some((letter, digits)) => letter.is_ascii_uppercase() && is_decimal(digits),
    }
}

/// Whether the end of these bytes of a row is in a comment.
fn is_comment(kind: FileKind, before: &[u8]) -> bool
    ensures { result ≡ is_comment kind before.now }
{
    match kind {
        FileKind::Rules => begins_with(b'#', unindented(before)),
        FileKind::Hwdb => before.contains(&b'#'),
    }
}

/// The word at a place of a comment, if it is written like the code of a message, such as `V6`: the one that the byte
/// at that place is in, or else the one that ends there. Whether there is such a code is not looked at.
#[tactic(auto, unfolding(crate::specs::Codes::code_at))]
pub fn code_at(kind: FileKind, row: &[u8], at: usize) -> Option<CodeWord>
    ensures value { result ≡ code_at kind row.now at }
    ensures within { IfSome result (λ word. (word.start ≤ word.end) × (word.end ≤ length row.now)) }
{
    let (before, after) = row.split_at(at.min(row.len()));
    let start = before.len() - trailing(before);
    let end = before.len() + leading(after);
    if is_comment(kind, before) && is_code(&row[start..end]) {
        Some(CodeWord { start, end })
    } else {
        None
    }
}
