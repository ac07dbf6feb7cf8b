//! The colors of diagnostics on a terminal.
ghost use Rattle.std.specs.Prelude.{◌≡◌};
ghost use Rattle.engine_formats.specs.Paints.{paint_of, paint_start, paint_stop};

use file_catalogue::{Remark, Severity};

/// The color that a part of a text is shown in.
#[derive(Clone, Copy, PartialEq, Eq)]
pub(crate) enum Paint {
    /// The terminal's own.
    Unpainted,
    /// Bold red.
    Red,
    /// Bold yellow.
    Yellow,
}

impl Paint {
    /// The color of a remark: in colors red for an error and yellow for a warning.
    pub(crate) fn of(in_color: bool, remark: Remark) -> Paint
        ensures { result ≡ paint_of in_color remark }
    {
        if in_color {
            match remark.severity() {
                Severity::Error => Paint::Red,
                Severity::Warning => Paint::Yellow,
            }
        } else {
            Paint::Unpainted
        }
    }

    /// What a terminal takes as the start of the color.
    pub(crate) fn start(self) -> &'static [u8]
        ensures { result.now ≡ paint_start self }
    {
        match self {
            Paint::Unpainted => b"",
            Paint::Red => b"\x1b[1;31m",
            Paint::Yellow => b"\x1b[1;33m",
        }
    }

    /// What a terminal takes as its end.
    pub(crate) fn stop(self) -> &'static [u8]
        ensures { result.now ≡ paint_stop self }
    {
        match self {
            Paint::Unpainted => b"",
            Paint::Red | Paint::Yellow => b"\x1b[0m",
        }
    }
}
