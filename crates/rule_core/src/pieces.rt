//! The lines of a file that are kept, and what each gives to a joined line.
ghost use Rattle.std.specs.Prelude.{◌≡◌};
ghost use Rattle.rule_core.specs.Lines.{piece_of};

use std::marker::Model;
use text_bytes::{Line, ends_in};

/// What a kept line gives to a joined line.
#[derive(Drop)]
pub struct Piece<'a> {
    /// The line's number in its file, counted from 1.
    pub number: usize,
    /// The line without the backslash that it may end in.
    pub text: &'a [u8],
    /// Whether the line ends in a backslash.
    pub continues: bool,
}

impl<'a> Model for Piece<'a> {
    ghost use Rattle.rule_core.specs.Lines.{Piece};

    ghost Value = { Piece };

    ghost view = { λ p. record { number = p.number; text = p.text.now; continues = p.continues } };
}

/// What a line gives to a joined line.
pub(crate) fn piece_of<'a>(line: &Line<'a>) -> Piece<'a>
    ensures { result ≡ piece_of line.now }
{
    let text = line.text();
    let continues = ends_in(b'\\', text);
    let (prefix, _) = text.split_at(text.len().saturating_sub(1));
    Piece {
        number: line.number(),
        text: if continues { prefix } else { text },
        continues,
    }
}
