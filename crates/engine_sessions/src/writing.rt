//! Writing whole texts to a sink that may take them in parts.
ghost use Rattle.std.specs.Prelude.{◌++◌, ◌∷◌, [], flat_map, OnOk, OnErr};
ghost use Rattle.text_bytes.specs.Escapes.{escape_text};
ghost use Rattle.text_bytes.specs.Names.{newline};
ghost use Rattle.engine_sessions.specs.Sinks.{BreaksOff, HandsOn, Takes};

use crate::device::{DeviceFault, Sink};
use text_bytes::escaped_byte;

/// Writes a whole text, in as many writes as the sink needs, and flushes nothing.
///
/// A `DeviceFault` says that a write failed or took nothing; a first part of the text may then have
/// been taken.
pub fn write_all<W: Sink>(sink: &mut W, text: &[u8]) -> Result<(), DeviceFault>
    ensures whole { OnOk result (Takes (W.shown sink.old) text.now (W.shown sink.new)) }
    ensures part { OnErr result (BreaksOff (W.shown sink.old) text.now (W.shown sink.new)) }
{
    let mut done = 0;
    while done < text.len() {
        let n = sink.write(&text[done..])?;
        if n == 0 {
            return Err(DeviceFault);
        }
        done += n;
    }
    Ok(())
}

/// Writes whole texts one after another, as `write_all` does one text.
fn write_each<W: Sink>(sink: &mut W, texts: &[&[u8]]) -> Result<(), DeviceFault>
    ensures whole { OnOk result (Takes (W.shown sink.old) (flat_map (λ t. t.now) texts.now) (W.shown sink.new)) }
    ensures part { OnErr result (BreaksOff (W.shown sink.old) (flat_map (λ t. t.now) texts.now) (W.shown sink.new)) }
{
    for next in texts {
        write_all(sink, next)?;
    }
    Ok(())
}

/// Writes a whole text and flushes it.
///
/// A `DeviceFault` says that a call failed or took nothing; a first part of the text, perhaps all of
/// it, may then have been taken, and none of it was flushed.
pub fn hand_on<W: Sink>(sink: &mut W, text: &[u8]) -> Result<(), DeviceFault>
    ensures whole { OnOk result (HandsOn (W.shown sink.old) text.now (W.shown sink.new)) }
    ensures part { OnErr result (BreaksOff (W.shown sink.old) text.now (W.shown sink.new)) }
{
    write_all(sink, text)?;
    sink.flush()
}

/// Writes whole texts one after another and flushes them, as `hand_on` does for one text.
pub fn hand_on_each<W: Sink>(sink: &mut W, texts: &[&[u8]]) -> Result<(), DeviceFault>
    ensures whole { OnOk result (HandsOn (W.shown sink.old) (flat_map (λ t. t.now) texts.now) (W.shown sink.new)) }
    ensures part { OnErr result (BreaksOff (W.shown sink.old) (flat_map (λ t. t.now) texts.now) (W.shown sink.new)) }
{
    write_each(sink, texts)?;
    sink.flush()
}

/// Writes a whole text escaped, as `escape` makes it, and flushes nothing.
///
/// It takes no memory: each run of bytes that need no escape is written as it is, and every other byte as its four
/// bytes. A `DeviceFault` says that a write failed or took nothing; a first part of what was to be written may then
/// have been taken.
fn write_escaped<W: Sink>(sink: &mut W, text: &[u8]) -> Result<(), DeviceFault>
    ensures whole { OnOk result (Takes (W.shown sink.old) (escape_text text.now) (W.shown sink.new)) }
    ensures part { OnErr result (BreaksOff (W.shown sink.old) (escape_text text.now) (W.shown sink.new)) }
{
    let mut done = 0;
    for (at, byte) in text.iter().enumerate() {
        if let Some(shown) = escaped_byte(*byte) {
            write_all(sink, &text[done..at])?;
            write_all(sink, &shown)?;
            done = at + 1;
        }
    }
    write_all(sink, &text[done..])
}

/// Writes a text, a word escaped and a newline, and flushes them, as `hand_on` does for one text.
pub(crate) fn hand_on_word<W: Sink>(
    sink: &mut W,
    start: &[u8],
    word: &[u8],
) -> Result<(), DeviceFault>
    ensures whole { OnOk result (HandsOn (W.shown sink.old)
        (start.now ++ escape_text word.now ++ newline ∷ []) (W.shown sink.new)) }
    ensures part { OnErr result (BreaksOff (W.shown sink.old)
        (start.now ++ escape_text word.now ++ newline ∷ []) (W.shown sink.new)) }
{
    write_all(sink, start)?;
    write_escaped(sink, word)?;
    hand_on(sink, b"\n")
}
