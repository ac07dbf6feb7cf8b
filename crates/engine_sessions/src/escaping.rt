//! Texts that are appended escaped.
ghost use Rattle.std.specs.List.{list_all};
ghost use Rattle.std.specs.Prelude.{◌≡◌, ◌≤◌, ◌++◌, count_by, length, not, OnOk, OnErr};
ghost use Rattle.text_bytes.specs.Escapes.{escape_text, is_escaped};

use std::alloc::{AllocError, Global};
use text_bytes::{escape, escaped_byte};

/// How many bytes are counted together: so few that a byte holds their number.
const CHUNK: usize = 128;

/// Whether a byte stands for itself.
fn is_plain_byte(byte: u8) -> bool
    ensures { result ≡ not (is_escaped byte) }
{
    escaped_byte(byte).is_none()
}

/// Whether all bytes of a text stand for themselves.
pub fn is_plain(text: &[u8]) -> bool
    ensures { result ≡ list_all (λ b. not (is_escaped b)) text.now }
{
    text.iter()
        .fold(true, |plain, byte| plain & is_plain_byte(*byte))
}

/// How many bytes of a short text do not stand for themselves.
fn count_in_chunk(chunk: &[u8]) -> u8
    requires { length chunk.now ≤ 128 }
    ensures { result ≡ count_by is_escaped chunk.now }
{
    let mut count = 0u8;
    for byte in chunk {
        count += u8::from(!is_plain_byte(*byte));
    }
    count
}

/// How many bytes of a text do not stand for themselves.
pub fn escaped_count(text: &[u8]) -> usize
    ensures { result ≡ count_by is_escaped text.now }
{
    let mut count = 0;
    let mut rest = text;
    while rest.len() > CHUNK {
        let (chunk, later) = rest.split_at(CHUNK);
        count += usize::from(count_in_chunk(chunk));
        rest = later;
    }
    count + usize::from(count_in_chunk(rest))
}

/// Appends a text to others, escaped as `escape` does it. Mostly nothing has to be, and then it is copied as it is.
///
/// If memory runs out, the others stay as they are.
#[tactic(auto, using(crate::proofs::Plain::plain_is_same))]
pub fn push_escaped(alloc: Global, texts: &mut Vec<u8>, text: &[u8]) -> Result<(), AllocError>
    ensures text { OnOk result (texts.new.items ≡ texts.old.items ++ escape_text text.now) }
    ensures refused { OnErr result (texts.new.items ≡ texts.old.items) }
{
    if is_plain(text) {
        texts.extend_from_slice(text)
    } else {
        texts.extend_from_slice(&escape(alloc, text)?)
    }
}
