//! What is reported about parts of a joined line.
ghost use Rattle.std.specs.Prelude.{◌≡◌};
ghost use Rattle.rule_types.specs.Spots.{spot_at_key, value_spot};

use rule_tokens::Token;
use text_bytes::Bytes;

/// What is reported about a part of a joined line: a finding, or a lint.
#[derive(Drop)]
pub struct Spot<K> {
    /// What is reported.
    pub kind: K,
    /// The whole text that it is about.
    pub word: Bytes,
    /// The place of the part's first byte, in bytes from the line's start.
    pub start: usize,
    /// How many bytes the part has.
    pub size: usize,
}

/// A token's key, reported with this text.
pub fn spot_at_key<K>(kind: K, word: Bytes, token: &Token<'_>) -> Spot<K>
    ensures { result ≡ spot_at_key kind word token.now }
{
    Spot {
        kind,
        word,
        start: token.span().start,
        size: token.key().len(),
    }
}

/// A token's value between its quotes, reported with this text.
pub fn value_spot<K>(kind: K, word: Bytes, token: &Token<'_>) -> Spot<K>
    ensures { result ≡ value_spot kind word token.now }
{
    let size = token.value().len();
    Spot {
        kind,
        word,
        start: token.span().end.saturating_sub(1).saturating_sub(size),
        size,
    }
}
