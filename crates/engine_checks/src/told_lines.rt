//! What is told of the lines of a rules file in plain lines, written as each of them is read.
//!
//! Nothing of a line is held when the next one is read but what lints need to know of it.
ghost use Rattle.std.specs.Prelude.{◌≡◌, ◌++◌, [], ◌∷◌, map, IfOk, OnOk};
ghost use Rattle.rule_core.specs.Counts.{token_count};
ghost use Rattle.rule_core.specs.Rules.{landed, reading_of};
ghost use Rattle.rule_file_lints.specs.Steps.{nothing_above};
ghost use Rattle.engine_checks.specs.Told.{above_told, bare, first_above, first_said, joined_told, line_said, lines_told, lints_at, lints_said};
ghost use Rattle.engine_checks.specs.Told.{messages_said, names_told, next_above, next_told, open_said, reads_silent, remarks_at, told};

use crate::reported::{Asked, is_asked};
use engine_sessions::{push_place, push_word};
use file_catalogue::Remark;
use file_messages::MessageKind;
use rule_core::{Draft, JoinedLines, LandedLines, LandedReading, Spot, line_findings, note_lines};
use rule_file_lints::{FileNames, RulesAbove, lints_of_line};
use rule_lints::Lint;
use rule_remarks::line_remarks;
use std::alloc::{AllocError, Global};
use text_bytes::{Profile, word_of};

/// Adds what is told of the joined lines of a file with a name, and counts the tokens that are left in their rules.
pub(crate) fn tell_joined(
    alloc: Global,
    asked: &Asked<'_>,
    text: &mut Vec<u8>,
    name: &[u8],
    joined: &JoinedLines<'_>,
) -> Result<usize, AllocError>
    ensures text { OnOk result (text.new.items ≡ text.old.items ++ joined_told asked.now name.now joined.now) }
    ensures tokens { IfOk result (λ count. count ≡ token_count (landed (map (reading_of asked.now.profile) joined.now.lines))) }
{
    let notes = note_lines(alloc, asked.profile, joined.lines())?;
    let lines = LandedLines::new(asked.profile, joined.lines(), &notes.landings);
    let names = names_told(alloc, asked, name, lines.copied())?;
    tell_lines(alloc, asked, text, name, &names, lines, &notes.silent)?;
    tell_open(alloc, asked, text, name, joined.open_at())?;
    Ok(notes.tokens)
}

/// What lints need to know of all lines of a file with a name, if they are asked for.
fn names_told(
    alloc: Global,
    asked: &Asked<'_>,
    name: &[u8],
    lines: LandedLines<'_>,
) -> Result<Option<FileNames>, AllocError>
    ensures { IfOk result (λ names. names ≡ names_told asked.now name.now lines.entry) }
{
    if asked.lint {
        Ok(Some(FileNames::of_lines(alloc, name, lines)?))
    } else {
        Ok(None)
    }
}

/// Adds what is told of lines, each of which is read here, unless nothing can be told of those that are silent.
fn tell_lines(
    alloc: Global,
    asked: &Asked<'_>,
    text: &mut Vec<u8>,
    name: &[u8],
    names: &Option<FileNames>,
    lines: LandedLines<'_>,
    silent: &[bool],
) -> Result<(), AllocError>
    ensures { OnOk result (text.new.items ≡ text.old.items ++ lines_told asked.now name.now names.now nothing_above silent.now lines.entry) }
{
    let mut above = RulesAbove::new(alloc);
    let mut rest = lines;
    for is_silent in silent {
        tell_unless(
            alloc, asked, text, name, names, &mut above, *is_silent, &rest,
        )?;
        rest = rest.others();
    }
    Ok(())
}

/// Adds what is told of the first of some lines, unless it is silent and nothing can be told of it.
fn tell_unless(
    alloc: Global,
    asked: &Asked<'_>,
    text: &mut Vec<u8>,
    name: &[u8],
    names: &Option<FileNames>,
    above: &mut RulesAbove,
    is_silent: bool,
    lines: &LandedLines<'_>,
) -> Result<(), AllocError>
    ensures text { OnOk result (text.new.items ≡ text.old.items ++ next_told asked.now name.now names.now above.old is_silent lines.now) }
    ensures above { OnOk result (above.new ≡ next_above asked.now names.now above.old is_silent lines.now) }
{
    if is_silent && !reads_silent(asked, names) {
        Ok(())
    } else {
        tell_first(alloc, asked, text, name, names, above, lines)
    }
}

/// Whether something may be told of a line about which nothing is found: lints, or what udev reports.
fn reads_silent(asked: &Asked<'_>, names: &Option<FileNames>) -> bool
    ensures { result ≡ reads_silent asked.now.profile names.now }
{
    match asked.profile {
        Profile::Manual => names.is_some(),
        Profile::Udev => true,
    }
}

/// Adds what is told of the first of some lines, which is read for it and is then above the next one.
fn tell_first(
    alloc: Global,
    asked: &Asked<'_>,
    text: &mut Vec<u8>,
    name: &[u8],
    names: &Option<FileNames>,
    above: &mut RulesAbove,
    lines: &LandedLines<'_>,
) -> Result<(), AllocError>
    ensures text { OnOk result (text.new.items ≡ text.old.items ++ told asked.now (first_said asked.now name.now names.now above.old lines.now)) }
    ensures above { OnOk result (above.new ≡ first_above names.now above.old lines.now) }
{
    match lines.first(alloc)? {
        None => Ok(()),
        Some(line) => {
            let lints = next_lints(alloc, asked, names, above, &line)?;
            tell_line(alloc, asked, text, name, &lints, line)
        }
    }
}

/// The lints of a line, which is then above the next one, if lints are asked for.
fn next_lints(
    alloc: Global,
    asked: &Asked<'_>,
    names: &Option<FileNames>,
    above: &mut RulesAbove,
    line: &LandedReading<'_>,
) -> Result<Vec<Spot<Lint>>, AllocError>
    ensures lints { IfOk result (λ spots. spots.items ≡ lints_at asked.now.profile names.now above.old line.now) }
    ensures above { OnOk result (above.new ≡ above_told names.now above.old line.now) }
{
    match names {
        None => Ok(Vec::new(alloc)),
        Some(names) => {
            let lints = lints_of_line(alloc, asked.profile, names, above, line)?;
            above.take(alloc, line)?;
            Ok(lints)
        }
    }
}

/// Adds what is told of a line with these lints.
#[tactic(auto, using(crate::proofs::Telling::all_of_line))]
fn tell_line(
    alloc: Global,
    asked: &Asked<'_>,
    text: &mut Vec<u8>,
    name: &[u8],
    lints: &[Spot<Lint>],
    line: LandedReading<'_>,
) -> Result<(), AllocError>
    ensures { OnOk result (text.new.items ≡ text.old.items ++ told asked.now (line_said asked.now name.now lints.now line.entry)) }
{
    let number = line.reading.line;
    let remarks = remarks_at(alloc, asked, &line.reading.read)?;
    let findings = line_findings(alloc, line)?;
    tell_messages(alloc, asked, text, name, number, &findings)?;
    tell_messages(alloc, asked, text, name, number, &remarks)?;
    tell_lints(alloc, asked, text, name, number, lints)
}

/// What udev reports about a line; by the manual nothing is.
fn remarks_at(
    alloc: Global,
    asked: &Asked<'_>,
    read: &Result<Draft<'_>, Spot<MessageKind>>,
) -> Result<Vec<Spot<MessageKind>>, AllocError>
    ensures { IfOk result (λ remarks. remarks.items ≡ remarks_at asked.now.profile asked.now.accounts read.now) }
{
    match asked.profile {
        Profile::Manual => Ok(Vec::new(alloc)),
        Profile::Udev => line_remarks(alloc, &asked.accounts, read),
    }
}

/// Adds what is told of messages about a line.
fn tell_messages(
    alloc: Global,
    asked: &Asked<'_>,
    text: &mut Vec<u8>,
    name: &[u8],
    number: u32,
    spots: &[Spot<MessageKind>],
) -> Result<(), AllocError>
    ensures { OnOk result (text.new.items ≡ text.old.items ++ told asked.now (messages_said name.now number spots.now)) }
{
    for spot in spots {
        let remark = Remark::Message(spot.kind);
        tell(
            alloc,
            asked,
            text,
            name,
            number,
            remark,
            spot.word.as_slice(),
        )?;
    }
    Ok(())
}

/// Adds what is told of lints of a line.
fn tell_lints(
    alloc: Global,
    asked: &Asked<'_>,
    text: &mut Vec<u8>,
    name: &[u8],
    number: u32,
    spots: &[Spot<Lint>],
) -> Result<(), AllocError>
    ensures { OnOk result (text.new.items ≡ text.old.items ++ told asked.now (lints_said name.now number spots.now)) }
{
    for spot in spots {
        let remark = Remark::Lint(spot.kind);
        tell(
            alloc,
            asked,
            text,
            name,
            number,
            remark,
            spot.word.as_slice(),
        )?;
    }
    Ok(())
}

/// Adds what is told of a line that is open at the end of its file, if there is one.
fn tell_open(
    alloc: Global,
    asked: &Asked<'_>,
    text: &mut Vec<u8>,
    name: &[u8],
    open_at: Option<u32>,
) -> Result<(), AllocError>
    ensures { OnOk result (text.new.items ≡ text.old.items ++ told asked.now (open_said name.now open_at)) }
{
    match open_at {
        None => Ok(()),
        Some(number) => {
            let remark = Remark::Message(MessageKind::OpenAtEnd);
            tell(alloc, asked, text, name, number, remark, &[])
        }
    }
}

/// Adds the plain line of a remark on a line with a word, if it is asked for.
#[tactic(auto, unfolding(engine_formats::specs::Lines::plain_line))]
pub(crate) fn tell(
    alloc: Global,
    asked: &Asked<'_>,
    text: &mut Vec<u8>,
    name: &[u8],
    number: u32,
    remark: Remark,
    word: &[u8],
) -> Result<(), AllocError>
    ensures { OnOk result (text.new.items ≡ text.old.items ++ told asked.now (bare name.now number remark word.now ∷ [])) }
{
    if is_asked(asked, remark) {
        push_place(alloc, text, name, number)?;
        remark.push_heading(text)?;
        push_word(alloc, text, word_of(word))?;
        text.push(b'\n')?;
    }
    Ok(())
}
