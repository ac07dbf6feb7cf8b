//! An entry of a table, and the one that stands at the front of a text.
ghost use Rattle.std.specs.Prelude.{◌≡◌, ◌≤◌, IfSome, length, map, option_map, true};
ghost use Rattle.lsp_words.specs.Entries.{entry_at, fits, is_open, row_of, rows_in};

use text_bytes::{begins_with, ends_in};

/// A word as it is written, and what it means, in Markdown: sentences, an empty line, and an example of one line in a block
/// of code. A word that ends in `=`, `_` or `:` is the beginning of longer ones.
pub type Entry = (&'static str, &'static str);

/// The words of a kind, in three parts of which some are empty.
pub type Parts = [&'static [Entry]; 3];

/// An entry of a table: its name, what it means, and an example.
macro_rules! entry {
    ($name:literal, $meaning:literal, $example:literal) => {
        ($name, concat!($meaning, "\n\n```\n", $example, "\n```"))
    };
}

pub(crate) use entry;

/// Whether a name is the beginning of words.
fn is_open(name: &[u8]) -> bool
    ensures { result ≡ is_open name.now }
{
    ends_in(b'=', name)
        || ends_in(b'_', name)
        || ends_in(b':', name)
        || begins_with(b'$', name)
        || begins_with(b'%', name)
}

/// Whether an entry's name stands at the front of a text, whose first word has so many bytes.
#[tactic(auto, using(crate::proofs::Standing::fits_within), unfolding(crate::specs::Entries::fits))]
fn fits(size: usize, text: &[u8], row: &Entry) -> bool
    ensures value { result ≡ fits size text.now (row_of row.now) }
    ensures within { result ≡ true → length row.now.0.now ≤ length text.now }
{
    let name = row.0.as_bytes();
    text.starts_with(name) && (is_open(name) || name.len() == size)
}

/// The first entry that stands at the front of a text, whose first word has so many bytes.
fn entry_at(table: &'static [Entry], size: usize, text: &[u8]) -> Option<Entry>
    ensures value { option_map row_of result ≡ entry_at (map row_of table.now) size text.now }
    ensures within { IfSome result (λ row. length row.0.now ≤ length text.now) }
{
    for entry in table {
        if fits(size, text, entry) {
            return Some(*entry);
        }
    }
    None
}

/// The first entry of some parts that stands at the front of a text, whose first word has so many bytes.
pub(crate) fn entry_in(parts: &[&'static [Entry]], size: usize, text: &[u8]) -> Option<Entry>
    ensures value { option_map row_of result ≡ entry_at (rows_in parts.now) size text.now }
    ensures within { IfSome result (λ row. length row.0.now ≤ length text.now) }
{
    for part in parts {
        match entry_at(part, size, text) {
            Some(entry) => return Some(entry),
            None => {}
        }
    }
    None
}
