//! A line of a file as it is shown, and the marks below a place in it.
ghost use Rattle.std.specs.Prelude.{◌≡◌, ◌≤◌, ◌++◌, take, drop, flat_map, length, map, IfOk, OnOk};
ghost use Rattle.std.specs.List.{prefix_len};
ghost use Rattle.engine_formats.specs.Human.{continues, first_start, mark_line, shown_byte, source_line, source_lines, under, window, window_start};
ghost use Rattle.engine_formats.specs.Masked.{masked};

use crate::paint::Paint;
use crate::signs::masked;
use std::alloc::{AllocError, Global};

/// At most how many bytes of a line are shown.
const WIDTH: usize = 160;

/// How many bytes of a longer line are shown before the place.
const MARGIN: usize = 40;

/// How many bytes before a byte say what becomes of it where it is masked.
const REACH: usize = 2;

/// The most bytes of a UTF-8 character after its first one.
const LONGEST_REST: usize = 3;

/// Appends the line that a place is in, masked, and a line that marks the place in a color: `^` below its first byte and
/// `~` below the others. Of a line of more than 160 bytes, 160 around the place are shown.
///
/// Only what is shown is masked, so that a line with many places is not read whole for each of them.
#[tactic(auto, unfolding(crate::specs::Human::source_lines))]
pub(crate) fn push_source(
    alloc: Global,
    text: &mut Vec<u8>,
    paint: Paint,
    source: &[u8],
    column: usize,
    end: usize,
) -> Result<(), AllocError>
    ensures { OnOk result (text.new.items ≡ text.old.items ++ source_lines paint (masked source.now) column end) }
{
    let start = masked_start(source, column);
    let shown = masked_window(alloc, source, start)?;
    let before = column.saturating_sub(1).saturating_sub(start);
    push_line(text, &shown)?;
    push_marks(
        text,
        paint,
        prefix(&shown, before),
        prefix(following(&shown, before), end.saturating_sub(column)),
    )
}

/// The start of the part of a masked line that is shown: that of the line as it is, since masked bytes continue a character as
/// they did.
#[tactic(auto, using(crate::proofs::Windows::same_start))]
fn masked_start(source: &[u8], column: usize) -> usize
    ensures { result ≡ window_start (masked source.now) column }
{
    window_start(source, column)
}

/// The part of a masked line that is shown. What is masked goes by the two bytes before it.
#[tactic(auto, using(crate::proofs::Windows::masked_part))]
fn masked_window(alloc: Global, source: &[u8], start: usize) -> Result<Vec<u8>, AllocError>
    ensures { IfOk result (λ part. part.items ≡ window (masked source.now) start) }
{
    let reach = start.min(REACH);
    let part = prefix(following(source, start - reach), reach + WIDTH);
    let part = masked(Vec::from_slice(alloc, part)?);
    Vec::from_slice(alloc, following(&part, reach))
}

/// The start of the part of a line that is shown. If that would be inside a UTF-8 character, the part begins after
/// the bytes that continue the character.
#[tactic(auto, unfolding(crate::specs::Human::window_start))]
fn window_start(source: &[u8], column: usize) -> usize
    ensures { result ≡ window_start source.now column }
{
    let start = first_start(source, column);
    if start == 0 {
        0
    } else {
        start + continuing(prefix(following(source, start), LONGEST_REST))
    }
}

/// The start of the part of a line that is shown, regardless of where characters begin.
fn first_start(source: &[u8], column: usize) -> usize
    ensures start { result ≡ first_start source.now column }
    ensures within { result ≤ length source.now }
{
    column
        .saturating_sub(1)
        .saturating_sub(MARGIN)
        .min(source.len().saturating_sub(WIDTH))
}

/// How many bytes at the start of a text continue a character.
fn continuing(bytes: &[u8]) -> usize
    ensures count { result ≡ prefix_len continues bytes.now }
    ensures within { result ≤ length bytes.now }
{
    bytes.iter().take_while(|byte| continues(**byte)).count()
}

/// The first bytes of a text, all of them if there are fewer.
#[tactic(auto, using(std::proofs::lemmas::List::take_min))]
pub(crate) fn prefix(text: &[u8], len: usize) -> &[u8]
    ensures { result.now ≡ take len text.now }
{
    &text[..len.min(text.len())]
}

/// What follows the first bytes of a text, nothing if there are fewer.
pub(crate) fn following(text: &[u8], len: usize) -> &[u8]
    ensures { result.now ≡ drop len text.now }
{
    if len < text.len() { &text[len..] } else { &[] }
}

/// Appends a part of a line, indented, and a newline.
#[tactic(auto, unfolding(crate::specs::Human::source_line))]
fn push_line(text: &mut Vec<u8>, shown: &[u8]) -> Result<(), AllocError>
    ensures { OnOk result (text.new.items ≡ text.old.items ++ source_line shown.now) }
{
    text.extend_from_slice(b"  ")?;
    push_shown(text, shown)?;
    text.push(b'\n')?;
    Ok(())
}

/// Appends the bytes of a line as they are shown.
fn push_shown(text: &mut Vec<u8>, bytes: &[u8]) -> Result<(), AllocError>
    ensures { OnOk result (text.new.items ≡ text.old.items ++ map shown_byte bytes.now) }
{
    for byte in bytes {
        text.push(shown_byte(*byte))?;
    }
    Ok(())
}

/// A byte of a line as it is shown: a tab as a space, and every other control byte as `?`, so that
/// each takes one column.
pub fn shown_byte(byte: u8) -> u8
    ensures { result ≡ shown_byte byte }
{
    match byte {
        b'\t' => b' ',
        0x00..=0x1F | 0x7F => b'?',
        _ => byte,
    }
}

/// Appends the marks of a place, in a color and by what is shown before it and in it, and a newline.
#[tactic(auto, unfolding(crate::specs::Human::mark_line))]
fn push_marks(
    text: &mut Vec<u8>,
    paint: Paint,
    before: &[u8],
    place: &[u8],
) -> Result<(), AllocError>
    ensures { OnOk result (text.new.items ≡ text.old.items ++ mark_line paint before.now place.now) }
{
    text.extend_from_slice(b"  ")?;
    push_under(text, b' ', before)?;
    text.extend_from_slice(paint.start())?;
    text.push(b'^')?;
    push_under(text, b'~', following(place, 1))?;
    text.extend_from_slice(paint.stop())?;
    text.push(b'\n')?;
    Ok(())
}

/// Appends a mark for each of the bytes that takes a column.
fn push_under(text: &mut Vec<u8>, mark: u8, bytes: &[u8]) -> Result<(), AllocError>
    ensures { OnOk result (text.new.items ≡ text.old.items ++ flat_map (under mark) bytes.now) }
{
    for byte in bytes {
        if !continues(*byte) {
            text.push(mark)?;
        }
    }
    Ok(())
}

/// Whether a byte continues a UTF-8 character, and so takes no column of its own.
pub(crate) fn continues(byte: u8) -> bool
    ensures { result ≡ continues byte }
{
    0x80 <= byte && byte < 0xC0
}
