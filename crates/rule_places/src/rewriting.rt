//! The lines of a file that make a joined line, with its commas and blanks mended.
ghost use Rattle.std.specs.Prelude.{◌≡◌, ◌++◌, ◌+◌, OnOk, take, drop};
ghost use Rattle.rule_places.specs.Rewritten.{or_blank, rewritten_from, rewritten_line, written_between, written_of};
ghost use Rattle.rule_places.specs.WholeLines.{indentation, size_of, whole_lines};

use crate::lines::{WholeLine, WholeLines};
use crate::stretches::Stretch;
use rule_core::{between, sum_of};
use std::alloc::{AllocError, Global};

/// Adds the lines of a joined line, of which these stretches stay, and the comments among them.
pub(crate) fn add_rewritten(
    alloc: Global,
    written: &mut Vec<u8>,
    text: &[u8],
    stretches: &[Stretch],
    run: &[u8],
) -> Result<(), AllocError>
    ensures { OnOk result (written.new.items ≡ written.old.items ++ rewritten_from text.now stretches.now 0 (whole_lines run.now)) }
{
    let mut place = 0;
    for line in WholeLines::new(run) {
        if line.is_comment() {
            written.extend_from_slice(line.bytes())?;
        } else {
            add_line(alloc, written, text, stretches, place, &line)?;
            place = sum_of(place, line.size())?;
        }
    }
    Ok(())
}

/// Adds a line that gives the bytes from a place on to its joined line.
fn add_line(
    alloc: Global,
    written: &mut Vec<u8>,
    text: &[u8],
    stretches: &[Stretch],
    place: usize,
    line: &WholeLine<'_>,
) -> Result<(), AllocError>
    ensures { OnOk result (written.new.items ≡ written.old.items ++ rewritten_line text.now stretches.now place line.now) }
{
    let to = sum_of(place, line.size())?;
    let bytes = line.bytes();
    let indentation = line.indentation();
    let mut own = Vec::new(alloc);
    own.extend_from_slice(front(bytes, indentation))?;
    add_between(&mut own, text, stretches, place, to)?;
    own.extend_from_slice(following(bytes, sum_of(indentation, line.size())?))?;
    if own.is_empty() {
        own.push(b' ')?;
    }
    written.extend_from_slice(&own)
}

/// Adds what is written between two places of a joined line.
fn add_between(
    own: &mut Vec<u8>,
    text: &[u8],
    stretches: &[Stretch],
    from: usize,
    to: usize,
) -> Result<(), AllocError>
    ensures { OnOk result (own.new.items ≡ own.old.items ++ written_between text.now stretches.now from to) }
{
    for stretch in stretches {
        add_stretch(own, text, *stretch, from, to)?;
    }
    Ok(())
}

/// Adds what is written for a stretch between two places of its line.
fn add_stretch(
    own: &mut Vec<u8>,
    text: &[u8],
    stretch: Stretch,
    from: usize,
    to: usize,
) -> Result<(), AllocError>
    ensures { OnOk result (own.new.items ≡ own.old.items ++ written_of text.now from to stretch) }
{
    own.extend_from_slice(between(from.max(stretch.start), to.min(stretch.end), text))?;
    if stretch.comma && from < stretch.end && stretch.end <= to {
        own.extend_from_slice(b", ")?;
    }
    Ok(())
}

/// The first so many bytes of a text, as many as there are.
fn front(text: &[u8], size: usize) -> &[u8]
    ensures { result.now ≡ take size text.now }
{
    &text[..size.min(text.len())]
}

/// The bytes of a text from a place on, none if it ends before that.
fn following(text: &[u8], place: usize) -> &[u8]
    ensures { result.now ≡ drop place text.now }
{
    &text[place.min(text.len())..]
}
