//! What a line of a database file is, and cleaning it.

ghost use Rattle.std.specs.Prelude.{◌≡◌};
ghost use Rattle.hwdb_core.specs.Lines.{cleaned};
ghost use Rattle.hwdb_core.specs.Paragraphs.{is_property};
ghost use Rattle.hwdb_core.specs.Properties.{property_text};

use text_bytes::{Line, begins_with, trimmed, unindented, up_to};

/// Whether a line is a property: one that begins with a space.
pub(crate) fn is_property(line: &Line<'_>) -> bool
    ensures { result ≡ is_property line.now }
{
    begins_with(b' ', line.text())
}

/// A line without its comment and the whitespace before that.
pub(crate) fn cleaned<'a>(line: &Line<'a>) -> Line<'a>
    ensures { result ≡ cleaned line.now }
{
    line.with_text(trimmed(up_to(b'#', line.text())))
}

/// A property without its leading blanks.
pub(crate) fn property_text<'a>(line: &Line<'a>) -> &'a [u8]
    ensures { result.now ≡ property_text line.now }
{
    unindented(line.text())
}
