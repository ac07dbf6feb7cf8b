//! What a text has in it, and texts put together.
ghost use Rattle.std.specs.Prelude.{◌≡◌, ◌<◌, ◌≤◌, IfOk, IfSome, drop, length, map, take};
ghost use Rattle.std.specs.List.{concat, join_with_byte, prefix_len};
ghost use Rattle.text_bytes.specs.Names.{minus};
ghost use Rattle.text_bytes.specs.Numbers.{is_digit};
ghost use Rattle.builtin_path.specs.Texts.{first_place};

use std::alloc::{AllocError, Global};
use text_bytes::{Bytes, is_digit};

/// A text without its first bytes, so many of them.
pub(crate) fn after_first(count: usize, text: &[u8]) -> &[u8]
    ensures { result.now ≡ drop count text.now }
{
    text.get(count..).unwrap_or(b"")
}

/// The first bytes of a text, at most so many of them.
pub(crate) fn first_bytes(count: usize, text: &[u8]) -> &[u8]
    ensures { result.now ≡ take count text.now }
{
    text.get(..count).unwrap_or(text)
}

/// How many digits a text begins with.
pub(crate) fn leading_digits(text: &[u8]) -> usize
    ensures value { result ≡ prefix_len is_digit text.now }
    ensures within { result ≤ length text.now }
{
    text.iter().take_while(|byte| is_digit(**byte)).count()
}

/// The first place of a text where another one is.
#[tactic(auto, unfolding(crate::specs::Texts::first_place))]
pub(crate) fn first_place(wanted: &[u8], text: &[u8]) -> Option<usize>
    ensures value { result ≡ first_place wanted.now text.now }
    ensures within { IfSome result (λ place. place < length text.now) }
{
    (0..text.len()).position(|place| after_first(place, text).starts_with(wanted))
}

/// Texts one after another.
pub(crate) fn concatenated(alloc: Global, texts: &[&[u8]]) -> Result<Bytes, AllocError>
    ensures { IfOk result (λ whole. whole ≡ concat (map (λ t. t.now) texts.now)) }
{
    let mut whole = Vec::new(alloc);
    for text in texts {
        whole.extend_from_slice(text)?;
    }
    Ok(Bytes::new(whole))
}

/// Texts joined by `-`.
#[tactic(auto, using(crate::proofs::Joining::join_more))]
pub(crate) fn joined(alloc: Global, texts: &[&[u8]]) -> Result<Bytes, AllocError>
    ensures { IfOk result (λ whole. whole ≡ join_with_byte minus (map (λ t. t.now) texts.now)) }
{
    let Some((first, others)) = texts.split_first() else {
        return Ok(Bytes::new(Vec::new(alloc)));
    };
    let mut whole = Vec::from_slice(alloc, first)?;
    for text in others {
        whole.push(b'-')?;
        whole.extend_from_slice(text)?;
    }
    Ok(Bytes::new(whole))
}
