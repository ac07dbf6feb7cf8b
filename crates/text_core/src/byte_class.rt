//! Classes of bytes, by the names that fnmatch(3) knows in the C locale.
ghost use Rattle.std.specs.Prelude.{◌≡◌, Some};
ghost use Rattle.text_core.specs.Classes.{class_has, class_name, class_of};

use text_bytes::{is_blank, is_whitespace};

/// A class of bytes. Bytes over 0x7F are in none.
#[derive(Clone, Copy, PartialEq, Eq)]
pub enum ByteClass {
    /// `alnum`: letters and digits.
    Alphanumeric,
    /// `alpha`: letters.
    Alphabetic,
    /// `blank`: the space and the tab.
    Blank,
    /// `cntrl`: 0x00 to 0x1F, and 0x7F.
    Control,
    /// `digit`: decimal digits.
    Digit,
    /// `graph`: what is printed, without the space.
    Graphic,
    /// `lower`: small letters.
    Lowercase,
    /// `print`: what is printed, including the space.
    Printed,
    /// `punct`: what is printed, without the space, letters and digits.
    Punctuation,
    /// `space`: the space, and 0x09 to 0x0D.
    Whitespace,
    /// `upper`: capitals.
    Uppercase,
    /// `xdigit`: hexadecimal digits.
    Hexdigit,
}

/// All classes.
const CLASSES: [ByteClass; 12] = [
    ByteClass::Alphanumeric,
    ByteClass::Alphabetic,
    ByteClass::Blank,
    ByteClass::Control,
    ByteClass::Digit,
    ByteClass::Graphic,
    ByteClass::Lowercase,
    ByteClass::Printed,
    ByteClass::Punctuation,
    ByteClass::Whitespace,
    ByteClass::Uppercase,
    ByteClass::Hexdigit,
];

impl ByteClass {
    /// Its name, by which `class_of` finds it.
    #[tactic(auto, unfolding(crate::specs::Classes::class_of))]
    pub fn name(self) -> &'static [u8]
        ensures name { result.now ≡ class_name self }
        ensures found { class_of (class_name self) ≡ Some self }
    {
        match self {
            ByteClass::Alphanumeric => b"alnum",
            ByteClass::Alphabetic => b"alpha",
            ByteClass::Blank => b"blank",
            ByteClass::Control => b"cntrl",
            ByteClass::Digit => b"digit",
            ByteClass::Graphic => b"graph",
            ByteClass::Lowercase => b"lower",
            ByteClass::Printed => b"print",
            ByteClass::Punctuation => b"punct",
            ByteClass::Whitespace => b"space",
            ByteClass::Uppercase => b"upper",
            ByteClass::Hexdigit => b"xdigit",
        }
    }

    /// Whether a byte is in the class.
    pub fn has(self, byte: u8) -> bool
        ensures { result ≡ class_has self byte }
    {
        match self {
            ByteClass::Alphanumeric => byte.is_ascii_alphanumeric(),
            ByteClass::Alphabetic => byte.is_ascii_alphabetic(),
            ByteClass::Blank => is_blank(byte),
            ByteClass::Control => byte.is_ascii_control(),
            ByteClass::Digit => byte.is_ascii_digit(),
            ByteClass::Graphic => byte.is_ascii_graphic(),
            ByteClass::Lowercase => byte.is_ascii_lowercase(),
            ByteClass::Printed => byte == b' ' || byte.is_ascii_graphic(),
            ByteClass::Punctuation => byte.is_ascii_punctuation(),
            ByteClass::Whitespace => is_whitespace(byte),
            ByteClass::Uppercase => byte.is_ascii_uppercase(),
            ByteClass::Hexdigit => byte.is_ascii_hexdigit(),
        }
    }
}

/// The class with a name, if there is one.
#[tactic(auto, unfolding(crate::specs::Classes::class_of))]
pub(crate) fn class_of(name: &[u8]) -> Option<ByteClass>
    ensures { result ≡ class_of name.now }
{
    CLASSES.iter().copied().find(|class| class.name() == name)
}
