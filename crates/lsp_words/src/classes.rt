//! What a byte may be in a row of a rules file.
ghost use Rattle.std.specs.Prelude.{◌≡◌};
ghost use Rattle.rule_tokens.specs.Grammar.{is_key_byte};
ghost use Rattle.text_bytes.specs.Names.{is_blank};
ghost use Rattle.lsp_words.specs.Classes.{class_of, is_operator_byte};

use text_bytes::is_blank;

/// What a byte may be in a row of a rules file.
#[derive(Clone, Copy, PartialEq, Eq)]
pub(crate) enum Class {
    /// A letter, a digit or `_`, of which keys are made.
    Letter,
    /// One of the bytes of operators.
    Operator,
    /// A space or a tab.
    Blank,
    Quote,
    OpenBrace,
    CloseBrace,
    Backslash,
    /// The sign of comments.
    Hash,
    /// What stands between patterns.
    Bar,
    /// `$` or `%`, which begin substitutions.
    Sign,
    /// Any other byte.
    Other,
}

/// Whether a byte may be in a key.
pub(crate) fn is_key_byte(byte: u8) -> bool
    ensures { result ≡ is_key_byte byte }
{
    byte.is_ascii_alphanumeric() || byte == b'_'
}

/// Whether a byte may be in an operator.
pub(crate) fn is_operator_byte(byte: u8) -> bool
    ensures { result ≡ is_operator_byte byte }
{
    byte == b'=' || byte == b'!' || byte == b'+' || byte == b'-' || byte == b':'
}

/// The class of a byte.
#[tactic(auto, unfolding(crate::specs::Classes::class_of))]
pub(crate) fn class_of(byte: u8) -> Class
    ensures { result ≡ class_of byte }
{
    if is_key_byte(byte) {
        Class::Letter
    } else if is_operator_byte(byte) {
        Class::Operator
    } else if is_blank(byte) {
        Class::Blank
    } else if byte == b'"' {
        Class::Quote
    } else if byte == b'{' {
        Class::OpenBrace
    } else if byte == b'}' {
        Class::CloseBrace
    } else if byte == b'\\' {
        Class::Backslash
    } else if byte == b'#' {
        Class::Hash
    } else if byte == b'|' {
        Class::Bar
    } else if byte == b'$' || byte == b'%' {
        Class::Sign
    } else {
        Class::Other
    }
}
