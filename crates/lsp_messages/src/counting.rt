//! The units in which characters are counted.
ghost use Rattle.std.specs.Prelude.{◌≡◌, ◌≤◌, length};
ghost use Rattle.text_bytes.specs.Numbers.{capped};
ghost use Rattle.lsp_messages.specs.Units.{fitting, units, width};

/// In which units characters are counted.
#[derive(Clone, Copy, PartialEq, Eq)]
pub enum Encoding {
    /// Bytes of UTF-8: a character has 1 to 4.
    Utf8,
    /// Units of UTF-16: a character has 1, or 2 if it is beyond the first 65,536.
    Utf16,
}

/// How many units the character has that a byte begins; none if it goes on with a character that an earlier byte began.
fn width(encoding: Encoding, byte: u8) -> u32
    ensures value { result ≡ width encoding byte }
    ensures small { result ≤ 4 }
{
    if 128 <= byte && byte < 192 {
        return 0;
    }
    match encoding {
        Encoding::Utf16 if byte < 240 => 1,
        Encoding::Utf16 => 2,
        Encoding::Utf8 if byte < 192 => 1,
        Encoding::Utf8 if byte < 224 => 2,
        Encoding::Utf8 if byte < 240 => 3,
        Encoding::Utf8 => 4,
    }
}

/// How many units a text has, at most 2^32 - 1.
pub fn units(encoding: Encoding, text: &[u8]) -> u32
    ensures { result ≡ capped (units encoding text.now) }
{
    let mut units = 0u32;
    for byte in text {
        units = units.saturating_add(width(encoding, *byte));
    }
    units
}

/// How many bytes at the front of a text are the characters that fit into so many units: whole characters only.
pub fn fitting(encoding: Encoding, count: u32, text: &[u8]) -> usize
    ensures value { result ≡ fitting encoding count text.now }
    ensures within { result ≤ length text.now }
{
    let mut left = count;
    for (at, byte) in text.iter().enumerate() {
        let width = width(encoding, *byte);
        if width > left {
            return at;
        }
        left -= width;
    }
    text.len()
}
