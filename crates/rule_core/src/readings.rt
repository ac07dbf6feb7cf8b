//! The joined lines of a file, each read as a rule.
//!
//! A line that is not a rule is kept here with what is wrong with it, so that the lines, what is said about them
//! and their jumps stay side by side.
ghost use Rattle.std.specs.Prelude.{◌≡◌, IfOk, map, option_map};
ghost use Rattle.rule_types.specs.Jumps.{landings};
ghost use Rattle.rule_core.specs.Notes.{nowhere, relanded};
ghost use Rattle.rule_core.specs.Rules.{landed, name_of, names_of, reading_of};

use crate::draft::Draft;
use crate::draft_reading::read_draft;
use crate::joined::JoinedLine;
use crate::line_fault::LineFault;
use crate::names::NamePlace;
use crate::notes::{NOWHERE, first_landing};
use file_messages::MessageKind;
use rule_types::{Jump, Landing, Spot, landings};
use std::alloc::{AllocError, Global};
use std::marker::Model;
use text_bytes::Profile;

/// A joined line, read as a rule.
#[derive(Drop)]
pub struct Reading<'a> {
    /// The number of the line of the file in which it begins, or for udev of the last that is part of it.
    pub line: u32,
    /// The joined bytes.
    pub text: &'a [u8],
    /// The rule as its line alone gives it, or what is wrong with it.
    pub read: Result<Draft<'a>, Spot<MessageKind>>,
}

impl<'a> Model for Reading<'a> {
    ghost use Rattle.rule_core.specs.Rules as rules;

    ghost Value = { rules.Reading };

    ghost view = { λ r. record { line = r.line; text = r.text.now; read = r.read } };
}

/// A joined line with what becomes of its jump and of its label.
#[derive(Drop)]
pub struct LandedReading<'a> {
    /// The line.
    pub reading: Reading<'a>,
    /// What becomes of its jump and of its label.
    pub landing: Landing,
}

impl<'a> Model for LandedReading<'a> {
    ghost use Rattle.rule_types.specs.declared.jumps.Landing as jumps;
    ghost use Rattle.rule_core.specs.Rules as rules;

    ghost Value = { rules.Reading × jumps.Landing };

    ghost view = { λ l. (l.reading, l.landing) };
}

/// Reads the joined lines of a file as rules, each with what becomes of its jump and of its label.
pub fn read_lines<'a>(
    alloc: Global,
    profile: Profile,
    lines: &'a [JoinedLine<'_>],
) -> Result<Vec<LandedReading<'a>>, AllocError>
    ensures { IfOk result (λ read. read.items ≡ landed (map (reading_of profile) lines.now)) }
{
    let mut landed = readings_of(alloc, profile, lines)?;
    let landings = landings_of(alloc, &landed)?;
    land(&mut landed, &landings);
    Ok(landed)
}

/// Sets what becomes of the jumps and of the labels of lines.
fn land(landed: &mut Vec<LandedReading<'_>>, landings: &[Landing])
    ensures { landed.new.items ≡ relanded landed.old.items landings.now }
{
    let mut rest = landings;
    for line in landed.iter_mut() {
        let (landing, left) = first_landing(rest);
        line.landing = landing;
        rest = left;
    }
}

/// Reads joined lines as rules, whatever becomes of their jumps and labels. Room that the parts of a rule do not need
/// is given back.
fn readings_of<'a>(
    alloc: Global,
    profile: Profile,
    lines: &'a [JoinedLine<'_>],
) -> Result<Vec<LandedReading<'a>>, AllocError>
    ensures { IfOk result (λ read. read.items ≡ map (λ r. (r, nowhere)) (map (reading_of profile) lines.now)) }
{
    let mut landed = Vec::with_capacity(alloc, lines.len())?;
    for line in lines {
        let mut reading = read_line(alloc, profile, line)?;
        if let Ok(draft) = &mut reading.read {
            draft.parts.shrink_to(0);
        }
        landed.push(LandedReading {
            reading,
            landing: NOWHERE,
        })?;
    }
    Ok(landed)
}

/// Reads a joined line as a rule.
pub fn read_line<'a>(
    alloc: Global,
    profile: Profile,
    line: &'a JoinedLine<'_>,
) -> Result<Reading<'a>, AllocError>
    ensures { IfOk result (λ reading. reading ≡ reading_of profile line.now) }
{
    let text = line.text();
    let read = match read_draft(alloc, profile, text) {
        Ok(draft) => Ok(draft),
        Err(LineFault::Wrong(found)) => Err(found),
        Err(LineFault::Memory) => return Err(AllocError),
    };
    Ok(Reading {
        line: line.number(),
        text,
        read,
    })
}

/// What becomes of the jumps of lines; one that is not a rule has no names for jumps.
fn landings_of(alloc: Global, readings: &[LandedReading<'_>]) -> Result<Vec<Landing>, AllocError>
    ensures { IfOk result (λ found. found.items ≡ landings (map (λ x. names_of x.0.read) readings.now)) }
{
    let mut jumps = Vec::with_capacity(alloc, readings.len())?;
    for line in readings {
        match &line.reading.read {
            Ok(draft) => {
                jumps.push(Jump::new(borrowed(&draft.label), borrowed(&draft.goto)))?;
            }
            Err(_) => {
                jumps.push(Jump::new(None, None))?;
            }
        }
    }
    landings(alloc, &jumps)
}

/// Returns a name, if there is one.
pub(crate) fn borrowed(given: &Option<NamePlace>) -> Option<&[u8]>
    ensures { option_map (λ t. t.now) result ≡ name_of given.now }
{
    match given {
        None => None,
        Some(place) => Some(place.name.as_slice()),
    }
}
