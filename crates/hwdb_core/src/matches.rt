//! What is looked at in a line as it is written.
ghost use Rattle.std.specs.Prelude.{◌≡◌, ◌==◌, ◌≤◌, length, not, option_map};
ghost use Rattle.std.specs.List.{suffix_len};
ghost use Rattle.hwdb_core.specs.Written.{after_mark, after_sets, cut_word, ends_in_blank, is_blank_beside, open_set};

use text_bytes::{begins_with, ends_in, find, following, is_whitespace};

/// What follows the byte order mark of a text, if it begins with one.
pub(crate) fn after_mark(text: &[u8]) -> Option<&[u8]>
    ensures { option_map (λ t. t.now) result ≡ after_mark text.now }
{
    following(b"\xEF\xBB\xBF", text)
}

/// Whether a line without a comment ends in a space or a tab.
pub(crate) fn ends_in_blank(line: &[u8]) -> bool
    ensures { result ≡ ends_in_blank line.now }
{
    find(b'#', line).is_none() && (ends_in(b' ', line) || ends_in(b'\t', line))
}

/// The rest of a line from its first `#` on, if that comes behind something other than whitespace.
pub(crate) fn cut_word(line: &[u8]) -> Option<&[u8]>
    ensures { option_map (λ t. t.now) result ≡ cut_word line.now }
{
    match find(b'#', line) {
        Some(at) if at > 0 && !is_whitespace(line[at - 1]) => Some(&line[at..]),
        _ => None,
    }
}

/// How many bytes follow the last `]` of a text.
fn length_after_sets(text: &[u8]) -> usize
    ensures value { result ≡ suffix_len (λ b. not (b == 93)) text.now }
    ensures within { result ≤ length text.now }
{
    text.iter().rev().take_while(|byte| **byte != b']').count()
}

/// What follows the last `]` of a text, all of it if it has none.
fn after_sets(text: &[u8]) -> &[u8]
    ensures { result.now ≡ after_sets text.now }
{
    let (_, following) = text.split_at(text.len() - length_after_sets(text));
    following
}

/// A match from the `[` on that has no `]`.
pub(crate) fn open_set(text: &[u8]) -> Option<&[u8]>
    ensures { option_map (λ t. t.now) result ≡ open_set text.now }
{
    let following = after_sets(text);
    match find(b'[', following) {
        Some(at) => Some(&following[at..]),
        None => None,
    }
}

/// Whether a blank ends a key or begins a value.
pub(crate) fn is_blank_beside(key: &[u8], value: &[u8]) -> bool
    ensures { result ≡ is_blank_beside key.now value.now }
{
    ends_in(b' ', key)
        || ends_in(b'\t', key)
        || begins_with(b' ', value)
        || begins_with(b'\t', value)
}
