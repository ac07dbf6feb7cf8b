//! The lines of a `.link` file.
ghost use Rattle.std.specs.Prelude.{◌≡◌, ◌≤◌, ◌==◌, length};
ghost use Rattle.std.specs.List.{prefix_len, suffix_len};
ghost use Rattle.text_bytes.specs.Names.{backslash};
ghost use Rattle.link_files.specs.Lines.{bare, from_start, is_comment, is_continued, is_space, stripped};

use text_bytes::{begins_with, ends_in, is_blank, without_last};

/// Whether a byte is a space, a tab, a newline or a carriage return.
pub(crate) fn is_space(byte: u8) -> bool
    ensures { result ≡ is_space byte }
{
    is_blank(byte) || byte == b'\n' || byte == b'\r'
}

/// How many such bytes a text begins with.
fn leading_spaces(text: &[u8]) -> usize
    ensures value { result ≡ prefix_len is_space text.now }
    ensures within { result ≤ length text.now }
{
    text.iter().take_while(|byte| is_space(**byte)).count()
}

/// How many such bytes a text ends in.
fn trailing_spaces(text: &[u8]) -> usize
    ensures value { result ≡ suffix_len is_space text.now }
    ensures within { result ≤ length text.now }
{
    text.iter()
        .rev()
        .take_while(|byte| is_space(**byte))
        .count()
}

/// A text without such bytes at its start.
pub fn from_start(text: &[u8]) -> &[u8]
    ensures { result.now ≡ from_start text.now }
{
    text.split_at(leading_spaces(text)).1
}

/// A text without such bytes at its ends.
#[tactic(auto, unfolding(crate::specs::Lines::stripped))]
pub fn stripped(text: &[u8]) -> &[u8]
    ensures { result.now ≡ stripped text.now }
{
    let begun = from_start(text);
    begun.split_at(begun.len() - trailing_spaces(begun)).0
}

/// A line without a carriage return at its end.
pub fn bare(line: &[u8]) -> &[u8]
    ensures { result.now ≡ bare line.now }
{
    if ends_in(b'\r', line) {
        without_last(line)
    } else {
        line
    }
}

/// Whether a line is a comment.
#[tactic(auto, unfolding(crate::specs::Lines::is_comment))]
pub fn is_comment(line: &[u8]) -> bool
    ensures { result ≡ is_comment line.now }
{
    let text = from_start(line);
    begins_with(b'#', text) || begins_with(b';', text)
}

/// How many backslashes a line ends in.
fn trailing_backslashes(line: &[u8]) -> usize
    ensures value { result ≡ suffix_len (λ b. b == backslash) line.now }
    ensures within { result ≤ length line.now }
{
    line.iter().rev().take_while(|byte| **byte == b'\\').count()
}

/// Whether a line goes on in the next one.
pub fn is_continued(line: &[u8]) -> bool
    ensures { result ≡ is_continued line.now }
{
    trailing_backslashes(line) % 2 == 1
}
