//! What the program shows differently on a terminal than in a file.
ghost use Rattle.std.specs.Prelude.{◌≡◌};
ghost use Rattle.devdry_gathering.specs.Terminals.{has_colors, shown_format};

use engine_sessions::{Color, Format};

/// Which of the program's streams are terminals.
#[derive(Clone, Copy, PartialEq, Eq)]
pub struct Terminals {
    /// Whether the input is a terminal.
    pub input: bool,
    /// Whether messages for people are shown in colors if a line does not say: the error output is a
    /// terminal, and the environment does not refuse colors.
    pub colors: bool,
}

/// Whether colors are shown, by when they are asked for, given whether they would be unasked.
pub(crate) fn has_colors(color: Color, colors: bool) -> bool
    ensures { result ≡ has_colors colors color }
{
    match color {
        Color::Auto => colors,
        Color::Always => true,
        Color::Never => false,
    }
}

/// The format for people in colors if these are shown, and any other as it is.
pub(crate) fn shown_format(format: Format, colors: bool) -> Format
    ensures { result ≡ shown_format colors format }
{
    match format {
        Format::Human if colors => Format::HumanInColor,
        _ => format,
    }
}
