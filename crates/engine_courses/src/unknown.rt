//! What is said about a text of `--why` that asks for nothing.
ghost use Rattle.std.specs.Prelude.{◌≡◌, ◌++◌, not, IfOk, OnOk, find, map, option_map};
ghost use Rattle.engine_courses.specs.Asked.{is_known, missing, unknown, unknown_line};

use crate::asked::is_known;
use crate::meant::meant_file;
use crate::nearest::nearest;
use crate::places::{Place, places_of};
use file_messages::Message;
use itoa::Buffer;
use rule_types::Rule;
use std::alloc::{AllocError, Global};
use text_bytes::{Bytes, escape};

/// Appends what is missing: a rule, with the nearest place, or a file, with the one that may be meant.
fn push_missing(
    alloc: Global,
    line: &mut Vec<u8>,
    nearest: Option<&Place<'_>>,
    meant: Option<&Place<'_>>,
) -> Result<(), AllocError>
    ensures { OnOk result (line.new.items
        ≡ line.old.items ++ missing (option_map (λ p. p.now) nearest.entry) (option_map (λ p. p.now) meant.entry)) }
{
    if let Some(place) = nearest {
        line.extend_from_slice(b"rule, the nearest is ")?;
        line.extend_from_slice(&escape(alloc, place.file)?)?;
        line.push(b':')?;
        return line.extend_from_slice(Buffer::new().format(place.line).as_bytes());
    }
    if let Some(place) = meant {
        line.extend_from_slice(b"rules file, the nearest is ")?;
        return line.extend_from_slice(&escape(alloc, place.file)?);
    }
    line.extend_from_slice(b"rules file")
}

/// The first text that asks for none of these places.
fn first_without_place<'a>(why: &[&'a str], places: &[Place<'_>]) -> Option<&'a str>
    ensures { option_map (λ t. t.now) result ≡ find (λ text. not (is_known places.now text)) (map (λ t. t.now) why.now) }
{
    why.iter()
        .find(|text| !is_known(text.as_bytes(), places))
        .copied()
}

/// The line on a text that asks for nothing.
#[tactic(auto, unfolding(crate::specs::Asked::unknown_line))]
fn unknown_line<'a>(
    alloc: Global,
    places: &'a [Place<'a>],
    text: &[u8],
) -> Result<Bytes, AllocError>
    ensures { IfOk result (λ line. line ≡ unknown_line places.now text.now) }
{
    let mut line = Vec::from_slice(alloc, b"devdry: --why ")?;
    line.extend_from_slice(&escape(alloc, text)?)?;
    line.extend_from_slice(b": no such ")?;
    let meant = meant_file(alloc, text, places)?;
    push_missing(alloc, &mut line, nearest(text, places), meant)?;
    line.push(b'\n')?;
    Ok(Bytes::new(line))
}

/// The line, with its newline, on the first text of `--why` that asks for no rule and for no message's place: that
/// there is no such rule, with the place of that file that is nearest to it, or that there is no such rules file, with
/// the one that may be meant.
/// There is none if each text asks for something.
#[tactic(auto, unfolding(crate::specs::Asked::unknown))]
pub fn first_unknown(
    alloc: Global,
    why: &[&str],
    messages: &[Message],
    rules: &[Rule],
) -> Result<Option<Bytes>, AllocError>
    ensures { IfOk result (λ line. line ≡ unknown (map (λ t. t.now) why.now) messages.now rules.now) }
{
    let places = places_of(alloc, messages, rules)?;
    match first_without_place(why, &places) {
        Some(text) => Ok(Some(unknown_line(alloc, &places, text.as_bytes())?)),
        None => Ok(None),
    }
}
