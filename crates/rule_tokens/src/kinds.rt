//! The small types of a token: its operator, how its value is quoted, where it lies, and why a part of a line is
//! not one.

use std::error::Error;
use std::fmt;

/// What is done with a key.
#[derive(Clone, Copy, PartialEq, Eq)]
pub enum Operator {
    /// `==`: the key is compared for equality.
    Equal,
    /// `!=`: the key is compared for inequality.
    NotEqual,
    /// `+=`: the value is added to the key's list.
    Add,
    /// `-=`: the value is removed from the key's list.
    Remove,
    /// `:=`: the key is given the value, and later changes are ignored.
    AssignFinal,
    /// `=`: the key is given the value.
    Assign,
}

impl Operator {
    ghost use Rattle.std.specs.Prelude.{◌≡◌};
    ghost use Rattle.rule_tokens.specs.Grammar.{compares};

    /// Whether the operator compares: `==` and `!=` do, and the others change the key.
    pub fn compares(self) -> bool
        ensures { result ≡ compares self }
    {
        match self {
            Operator::Equal | Operator::NotEqual => true,
            _ => false,
        }
    }
}

/// How a value is quoted: what the letters before its first `"` ask for.
#[derive(Clone, Copy, PartialEq, Eq)]
pub enum Quote {
    /// `".."`: only `\"` is an escape.
    Plain,
    /// `e".."`: escapes as in C.
    Escaped,
    /// `i".."`: a plain value that ignores case when it is compared.
    Blind,
    /// `ei".."` or `ie".."`: escapes as in C, and case is ignored.
    BlindEscaped,
}

/// Where a token lies in its line, in bytes from the line's start.
#[derive(Clone, Copy, PartialEq, Eq)]
pub struct Span {
    /// The place of the first byte of the key.
    pub start: usize,
    /// The place after the closing quote.
    pub end: usize,
}

/// Why a part of a line is not a token.
#[derive(Clone, Copy, Debug, PartialEq, Eq)]
pub enum TokenFaultKind {
    /// 1: it doesn't follow the syntax of a token.
    Syntax,
    /// 2: it is right up to its value, but the letters before the `"` are not a prefix, or not one that may follow
    /// this operator.
    Prefix,
}

impl fmt::Display for TokenFaultKind {
    ghost use Rattle.std.specs.Prelude.{Some};
    ghost use Rattle.rule_tokens.specs.FaultTexts.{kind_text};

    ghost output = { λ kind. Some (kind_text kind) };

    fn fmt<W: fmt::Write>(&self, f: &mut fmt::Formatter<W>) -> fmt::Result {
        f.write_str(match self {
            TokenFaultKind::Syntax => "bad syntax",
            TokenFaultKind::Prefix => "bad quote prefix",
        })
    }
}

/// The first part of a line that is not a token.
#[derive(Clone, Copy, Debug, PartialEq, Eq)]
pub struct TokenFault {
    /// The place of its first byte, in bytes from the line's start.
    pub at: usize,
    /// What is wrong with it.
    pub kind: TokenFaultKind,
}

impl fmt::Display for TokenFault {
    ghost use Rattle.std.specs.Prelude.{Some};
    ghost use Rattle.rule_tokens.specs.FaultTexts.{fault_text};

    ghost output = { λ fault. Some (fault_text fault) };

    fn fmt<W: fmt::Write>(&self, f: &mut fmt::Formatter<W>) -> fmt::Result {
        write!(f, "{} at byte {}", self.kind, self.at)
    }
}

impl Error for TokenFault {}
