//! How a template is rendered, and what becomes of it.
ghost use Rattle.std.specs.Prelude.{◌≡◌};
ghost use Rattle.eval_rendering.specs.Bounds.{within};

use text_bytes::Bytes;

/// What a text is rendered for.
#[derive(Clone, Copy, PartialEq, Eq)]
pub enum Mode {
    /// Any text: substitutions are put in as they are.
    Plain,
    /// The name of a link or of a network device: substitutions except that of `$result` are put in as one word,
    /// and the text is made safe.
    Link,
}

/// A template with its substitutions made.
#[derive(Drop)]
pub enum Rendered {
    /// The text, of at most 16,384 bytes.
    Text(Bytes),
    /// The text would have more bytes, or, for udev, one of its substitutions has an attribute of over 511.
    TooLong,
}

impl Rendered {
    /// The text, unless it has more bytes than these; then it is too long.
    pub fn within(self, most: usize) -> Rendered
        ensures { result ≡ within most self }
    {
        match self {
            Rendered::Text(text) => {
                if text.as_slice().len() > most {
                    Rendered::TooLong
                } else {
                    Rendered::Text(text)
                }
            }
            Rendered::TooLong => Rendered::TooLong,
        }
    }
}
