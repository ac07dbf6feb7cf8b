//! The tag of a path.
ghost use Rattle.std.specs.Prelude.{◌≡◌, IfOk, map};
ghost use Rattle.builtin_path.specs.Path.{tag, tag_byte};

use crate::texts::first_bytes;
use std::alloc::{AllocError, Global};
use text_bytes::{Bytes, ends_in, underscored, without_last};

/// The most bytes of a tag.
const MAX_TAG: usize = 511;

/// A byte that stays in a tag, and a space for any other.
fn tag_byte(byte: u8) -> u8
    ensures { result ≡ tag_byte byte }
{
    if byte.is_ascii_alphanumeric() || byte == b'-' {
        byte
    } else {
        b' '
    }
}

/// A text in which each byte that does not stay in a tag is a space.
fn spaced(alloc: Global, text: &[u8]) -> Result<Vec<u8>, AllocError>
    ensures { IfOk result (λ bytes. bytes.items ≡ map tag_byte text.now) }
{
    text.iter().map(|byte| tag_byte(*byte)).collect(alloc)
}

/// A text as a tag.
#[tactic(auto, unfolding(crate::specs::Path::tag))]
pub(crate) fn tag(alloc: Global, text: &[u8]) -> Result<Bytes, AllocError>
    ensures { IfOk result (λ word. word ≡ tag text.now) }
{
    let bytes = spaced(alloc, text)?;
    let word = underscored(alloc, &bytes)?;
    let tag = first_bytes(MAX_TAG, &word);
    if ends_in(b'_', tag) {
        return Bytes::copy_of(alloc, without_last(tag));
    }
    Bytes::copy_of(alloc, tag)
}
