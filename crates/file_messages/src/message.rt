//! Messages about a line of a file.
//!
//! A message is kept as what it says and not as text: the texts are made once, where they are written.
ghost use Rattle.std.specs.Prelude.{◌≡◌, IfOk};
ghost use Rattle.file_messages.specs.Messages.{is_style, message};

use std::alloc::{AllocError, Global};
use text_bytes::{Bytes, capped, word_of};

/// What is wrong with a line: of the database (H), with a rule (V), or with how a rule is written (S).
#[derive(Clone, Copy, PartialEq, Eq)]
pub enum MessageKind {
    /// H1: a property comes before the first match of its paragraph.
    PropertyWithoutMatch,
    /// H2: no property line follows the matches of a paragraph.
    MatchWithoutProperty,
    /// H3: a line that is not indented comes after the properties of a paragraph.
    UnindentedLine,
    /// H4: a property has no `=`.
    NoEquals,
    /// H5: nothing comes before the `=` of a property.
    EmptyKey,
    /// H6: a match is not a supported pattern.
    PatternNotSupported,
    /// V1: a part of a rule is not a token.
    BadSyntax,
    /// V2: a token's key is not one of udev's.
    UnknownKey,
    /// V3: a key does not take its operator.
    OperatorNotAllowed,
    /// V4: a key lacks its attribute, or does not take the one that it has.
    WrongAttribute,
    /// V5: a value is not one of those that its key takes.
    BadValue,
    /// V6: a value has an invalid substitution.
    BadSubstitution,
    /// V7: no later rule of the file has the label that a rule jumps to.
    NoLaterLabel,
    /// V8: a rule has a second label, or jumps a second time.
    GivenTwice,
    /// V9: a rule has more than 16,384 bytes.
    LineTooLong,
    /// V10: the letters before a value are not a prefix that is allowed there.
    BadPrefix,
    /// V11: a set of a pattern has a class, which is not supported.
    SetNotSupported,
    /// V12: the last line of a file is to be continued.
    OpenAtEnd,
    /// V13: a property is assigned that udev alone sets.
    ReservedProperty,
    /// V14: NAME is assigned the empty text or `%k`.
    NameWithoutEffect,
    /// V15: a builtin is not one of udev's.
    UnknownBuiltin,
    /// V16: two matches of a rule exclude each other.
    MatchesExclude,
    /// V17: a rule says the same twice.
    SaidTwice,
    /// V18: nothing in a rule has an effect.
    RuleWithoutEffect,
    /// V19: a RESULT comes before the PROGRAM that it asks about.
    ResultBeforeProgram,
    /// V20: a value is empty although it has to say something.
    EmptyValue,
    /// V21: the name of an attribute has an invalid substitution.
    BadAttributeSubstitution,
    /// V22: the name of an attribute leads to another device.
    AttributeElsewhere,
    /// V23: SUBSYSTEM is compared with an old name of `subsystem`.
    OldSubsystemName,
    /// V24: an operator is read as `=`, as in S3, which udev takes for more than a remark.
    AssignExpected,
    /// V25: no user or group has a name.
    UnknownAccount,
    /// V26: a file is given up because of a line of 16,384 bytes or more.
    FileAbandoned,
    /// S1: not exactly one comma is between two tokens, or one follows the last.
    CommaExpected,
    /// S2: a comma comes directly before a token.
    BlankExpected,
    /// S3: an operator is read as `=`.
    ReadAsAssign,
    /// S4: nothing jumps to a label.
    LabelUnused,
    /// S5: a comma comes before the first token.
    LeadingComma,
    /// S6: a blank comes before a comma.
    BlankBeforeComma,
}

impl MessageKind {
    /// Whether it is about style: the S messages.
    pub fn is_style(self) -> bool
        ensures { result ≡ is_style self }
    {
        matches!(
            self,
            MessageKind::CommaExpected
                | MessageKind::BlankExpected
                | MessageKind::ReadAsAssign
                | MessageKind::LabelUnused
                | MessageKind::LeadingComma
                | MessageKind::BlankBeforeComma
        )
    }
}

/// A message about a line of a file.
#[derive(Drop)]
pub struct Message {
    /// The name of the file.
    pub file: Bytes,
    /// The number of the line, counted from 1; a greater one than 2^32 - 1 is given as that.
    pub line: u32,
    /// What is wrong.
    pub kind: MessageKind,
    /// The first 32 bytes of the part of the line that it is about, before escaping.
    pub word: Bytes,
}

impl Message {
    /// The message that something is wrong with a line of a file, reported with a text of that line.
    pub fn about(
        alloc: Global,
        file: &[u8],
        number: usize,
        kind: MessageKind,
        text: &[u8],
    ) -> Result<Message, AllocError>
        ensures { IfOk result (λ reported. reported ≡ message file.now number kind text.now) }
    {
        Ok(Message {
            file: Bytes::copy_of(alloc, file)?,
            line: capped(number),
            kind,
            word: Bytes::copy_of(alloc, word_of(text))?,
        })
    }
}
