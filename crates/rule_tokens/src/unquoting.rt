//! What the value of a token means once its escapes are read.

ghost use Rattle.std.specs.Prelude.{◌≡◌, IfOk, OnOk, ◌++◌};
ghost use Rattle.std.specs.List.{flat_map};
ghost use Rattle.text_bytes.specs.Text.{Text};
ghost use Rattle.rule_tokens.specs.Values.{Means, has_escapes, meaning};
ghost use Rattle.rule_tokens.specs.Reading.{pieces_of, meant, unquoted};

use crate::escapes::Meaning;
use crate::parts::Token;
use crate::prefixes::has_escapes;
use crate::values::{piece_of, single_length};
use std::alloc::{AllocError, Global};

/// Adds the bytes of a meaning: a byte, or a character in UTF-8.
fn push_meaning(out: &mut Vec<u8>, meaning: Meaning) -> Result<(), AllocError>
    ensures { OnOk result (out.new.items ≡ out.old.items ++ meant meaning) }
{
    match meaning {
        Meaning::Byte(b) => out.extend_from_slice(&[b]),
        Meaning::Character(c) => {
            let mut bytes = [0; 4];
            out.extend_from_slice(c.encode_utf8(&mut bytes).as_bytes())
        }
    }
}

/// What the pieces at the front of a text mean.
#[tactic(auto, using(crate::proofs::Loops::unquote_steps))]
fn meaning_of(alloc: Global, escaped: bool, text: &[u8]) -> Result<Vec<u8>, AllocError>
    ensures { IfOk result (λ v. v.items ≡ flat_map meaning (pieces_of escaped 0 text.now)) }
{
    let (single, mut rest) = text.split_at(single_length(text));
    let mut out = Vec::from_slice(alloc, single)?;
    while let Some((meaning, after)) = piece_of(escaped, rest) {
        push_meaning(&mut out, meaning)?;
        rest = after;
    }
    Ok(out)
}

/// The bytes that the value of a token means: in a plain value `\"` stands for `"`, in an `e` value
/// each escape for its byte or for its character in UTF-8.
///
/// The escapes are those of udev(7).
#[tactic(auto, using(crate::proofs::Meanings::means_unquoted, crate::proofs::Meanings::means_only))]
pub fn unquote(alloc: Global, token: &Token<'_>) -> Result<Vec<u8>, AllocError>
    // The value means these bytes.
    ensures means { IfOk result (λ v. Means (has_escapes token.now.parts.quote) token.now.parts.value v.items) }
    // It means no others.
    ensures only { (bytes : Text) → Means (has_escapes token.now.parts.quote) token.now.parts.value bytes
        → IfOk result (λ v. v.items ≡ bytes) }
    // The same as a function of the value, for definitions above.
    ensures value { IfOk result (λ v. v.items ≡ unquoted token.now.parts.quote token.now.parts.value) }
{
    meaning_of(alloc, has_escapes(token.parts.quote), token.parts.value)
}
