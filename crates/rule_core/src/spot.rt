//! What is found about parts of a joined line.
ghost use Rattle.std.specs.Prelude.{◌≡◌, IfOk};
ghost use Rattle.rule_core.specs.Spots.{attribute_spot, key_spot, part_spot, token_spot, whole_spot};

use crate::letters::letters_start;
use crate::places::following;
use crate::sums::sum_of;
use file_messages::MessageKind;
use rule_tokens::{Token, TokenFault, TokenFaultKind, letters_before_quote, unquote};
use rule_types::{Spot, spot_at_key, value_spot};
use std::alloc::{AllocError, Global};
use text_bytes::Bytes;

/// A finding about a token's key, reported with the key.
pub fn key_spot(
    alloc: Global,
    kind: MessageKind,
    token: &Token<'_>,
) -> Result<Spot<MessageKind>, AllocError>
    ensures { IfOk result (λ found. found ≡ key_spot kind token.now) }
{
    let key = Bytes::copy_of(alloc, token.key())?;
    Ok(spot_at_key(kind, key, token))
}

/// A finding about a token's attribute between its braces. Fails if memory runs out, or if the place of
/// the attribute would be over 2^64 - 1.
pub fn attribute_spot(
    alloc: Global,
    kind: MessageKind,
    token: &Token<'_>,
) -> Result<Spot<MessageKind>, AllocError>
    ensures { IfOk result (λ found. found ≡ attribute_spot kind token.now) }
{
    let attribute: &[u8] = match token.attribute() {
        None => &[],
        Some(attribute) => attribute,
    };
    let brace = sum_of(token.span().start, token.key().len())?;
    Ok(Spot {
        kind,
        word: Bytes::copy_of(alloc, attribute)?,
        start: sum_of(brace, 1)?,
        size: attribute.len(),
    })
}

/// The finding about a token that is not a part of a rule: about its key, its attribute, or its value with
/// what that means.
pub(crate) fn part_spot(
    alloc: Global,
    kind: MessageKind,
    token: &Token<'_>,
) -> Result<Spot<MessageKind>, AllocError>
    ensures { IfOk result (λ found. found ≡ part_spot kind token.now) }
{
    match kind {
        MessageKind::UnknownKey | MessageKind::WrongAttribute | MessageKind::OperatorNotAllowed =>
            key_spot(alloc, kind, token),
        MessageKind::ReservedProperty => attribute_spot(alloc, kind, token),
        _ => {
            let meaning = Bytes::new(unquote(alloc, token)?);
            Ok(value_spot(kind, meaning, token))
        }
    }
}

/// The finding about the part of a line, given from its first byte on, that is not a token: about all up to
/// the line's end, or about the letters before the quote.
pub(crate) fn token_spot(
    alloc: Global,
    fault: TokenFault,
    line: &[u8],
) -> Result<Spot<MessageKind>, AllocError>
    ensures { IfOk result (λ found. found ≡ token_spot fault.kind fault.at line.now) }
{
    let text = following(fault.at, line);
    match fault.kind {
        TokenFaultKind::Syntax => Ok(Spot {
            kind: MessageKind::BadSyntax,
            word: Bytes::copy_of(alloc, text)?,
            start: fault.at,
            size: text.len(),
        }),
        TokenFaultKind::Prefix => {
            let letters = letters_before_quote(text);
            Ok(Spot {
                kind: MessageKind::BadPrefix,
                word: Bytes::copy_of(alloc, letters)?,
                start: letters_start(line, text, letters),
                size: letters.len(),
            })
        }
    }
}

/// A finding about a line as a whole, reported with no text.
pub(crate) fn whole_spot(alloc: Global, kind: MessageKind, line: &[u8]) -> Spot<MessageKind>
    ensures { result ≡ whole_spot kind line.now }
{
    Spot {
        kind,
        word: Bytes::new(Vec::new(alloc)),
        start: 0,
        size: line.len(),
    }
}
