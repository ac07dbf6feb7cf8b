//! What is in a line, and no editor shows.
ghost use Rattle.std.specs.Prelude.{◌≡◌, is_some};
ghost use Rattle.devdry_links.specs.Unseen.{has_no_break, is_in, told_of};

use text_bytes::{begins_with, ends_in, following, unindented};

/// What no editor shows.
#[derive(Clone, Copy)]
pub(crate) enum Unseen {
    /// A byte order mark, U+FEFF, at the start of a line.
    Mark,
    /// A carriage return at the end of a line.
    Return,
    /// A no-break space, U+00A0, in a line that is no comment.
    NoBreak,
}

const BYTE_ORDER_MARK: &[u8] = b"\xEF\xBB\xBF";

/// Whether a text has a no-break space in UTF-8.
fn has_no_break(text: &[u8]) -> bool
    ensures { result ≡ has_no_break text.now }
{
    let mut before = 0;
    for byte in text {
        if before == 0xC2 && *byte == 0xA0 {
            return true;
        }
        before = *byte;
    }
    false
}

impl Unseen {
    /// Whether a line has it.
    pub(crate) fn is_in(self, line: &[u8]) -> bool
        ensures { result ≡ is_in self line.now }
    {
        match self {
            Unseen::Mark => following(BYTE_ORDER_MARK, line).is_some(),
            Unseen::Return => ends_in(b'\r', line),
            Unseen::NoBreak => !begins_with(b'#', unindented(line)) && has_no_break(line),
        }
    }

    /// What is told of it.
    pub(crate) fn told(self) -> &'static [u8]
        ensures { result.now ≡ told_of self }
    {
        match self {
            Unseen::Mark =>
                b"a byte order mark, which no editor shows: save the file as UTF-8 without one",
            Unseen::Return =>
                b"the line ends in a carriage return, as on Windows: save the file with LF alone",
            Unseen::NoBreak => b"a no-break space, which looks like a space: write a space",
        }
    }
}
