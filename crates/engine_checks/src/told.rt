//! What is told of rules files in plain lines.
//!
//! A file's lines are told as each of them is read, so that it takes memory by its bytes and not by what is found in it. Two
//! kinds of files are read whole: those in which comments count, since what they silence is known in the end, and those
//! that are given up.
ghost use Rattle.std.specs.Prelude.{◌≡◌, ◌+◌, ◌++◌, ◌||◌, None, false, flat_map, map, sum_by, IfOk, OnOk};
ghost use Rattle.text_bytes.specs.Text.{Text};
ghost use Rattle.text_tables.specs.Texts.{is_among};
ghost use Rattle.rule_core.specs.Ends.{abandoned};
ghost use Rattle.rule_core.specs.Rules.{file_rules};
ghost use Rattle.rule_types.specs.Rules.{tokens_in};
ghost use Rattle.engine_formats.specs.Lines.{plain_line};
ghost use Rattle.engine_checks.specs.Codes.{has_comments};
ghost use Rattle.engine_checks.specs.Told.{are_rising, is_open_after, reported_by};

use crate::asked::has_comments;
use crate::counted::Counted;
use crate::reads::read_files;
use crate::reported::Asked;
use crate::rules_reported::rules_reported;
use crate::told_lines::tell_joined;
use engine_formats::formatted;
use engine_sessions::{Format, Line};
use rule_core::{JoinedLine, abandoned_at, joined_lines, sum_of};
use std::alloc::{AllocError, Global};
use std::slice::from_ref;
use text_bytes::SourceFile;

/// What is told of rules files.
#[derive(Drop)]
pub(crate) struct Told<'f> {
    /// The plain lines of what is reported for them.
    pub(crate) text: Vec<u8>,
    /// The files for which something is.
    pub(crate) bad: Vec<&'f [u8]>,
    /// How many tokens are left in their rules.
    pub(crate) tokens: usize,
}

/// What is told of rules files that a command line reads.
pub(crate) fn told_of<'f>(
    alloc: Global,
    asked: &Asked<'_>,
    line: &Line<'_>,
    files: &'f [SourceFile],
) -> Result<Told<'f>, AllocError>
    ensures text { IfOk result (λ t. t.text.items ≡ flat_map plain_line (flat_map (reported_by asked.now line.now) files.now)) }
    ensures bad { IfOk result (λ t. (name : Text) → is_among (map (λ n. n.now) t.bad.items) name
        ≡ is_among (map (λ d. d.name) (flat_map (reported_by asked.now line.now) files.now)) name) }
    ensures tokens { IfOk result (λ t. t.tokens ≡ sum_by (λ f. tokens_in (file_rules asked.now.profile f)) files.now) }
{
    let mut told = Told {
        text: Vec::new(alloc),
        bad: Vec::new(alloc),
        tokens: 0,
    };
    for file in files {
        tell_next(alloc, asked, line, &mut told, file)?;
    }
    Ok(told)
}

/// Adds what is told of one more file.
fn tell_next<'f>(
    alloc: Global,
    asked: &Asked<'_>,
    line: &Line<'_>,
    all: &mut Told<'f>,
    file: &'f SourceFile,
) -> Result<(), AllocError>
    ensures text { OnOk result (all.new.text.items ≡ all.old.text.items ++ flat_map plain_line (reported_by asked.now line.now file.now)) }
    ensures bad { OnOk result ((name : Text) → is_among (map (λ n. n.now) all.new.bad.items) name
        ≡ (is_among (map (λ n. n.now) all.old.bad.items) name || is_among (map (λ d. d.name) (reported_by asked.now line.now file.now)) name)) }
    ensures tokens { OnOk result (all.new.tokens ≡ all.old.tokens + tokens_in (file_rules asked.now.profile file.now)) }
{
    let before = all.text.len();
    let tokens = tell_file(alloc, asked, line, &mut all.text, file)?;
    all.tokens = sum_of(all.tokens, tokens)?;
    if all.text.len() > before {
        all.bad.push(file.name.as_slice())?;
    }
    Ok(())
}

/// Adds what is told of a file, and counts the tokens that are left in its rules.
fn tell_file(
    alloc: Global,
    asked: &Asked<'_>,
    line: &Line<'_>,
    text: &mut Vec<u8>,
    file: &SourceFile,
) -> Result<usize, AllocError>
    ensures text { OnOk result (text.new.items ≡ text.old.items ++ flat_map plain_line (reported_by asked.now line.now file.now)) }
    ensures tokens { IfOk result (λ count. count ≡ tokens_in (file_rules asked.now.profile file.now)) }
{
    if has_comments(&asked.ignored) {
        return tell_whole(alloc, asked, line, text, file);
    }
    match abandoned_at(asked.profile, file.bytes.as_slice()) {
        None => tell_read(alloc, asked, line, text, file),
        Some(_) => tell_whole(alloc, asked, line, text, file),
    }
}

/// The same for a file in which no comment counts and that is not given up.
#[tactic(auto, using(crate::proofs::Telling::read_told, crate::proofs::Telling::read_counted))]
fn tell_read(
    alloc: Global,
    asked: &Asked<'_>,
    line: &Line<'_>,
    text: &mut Vec<u8>,
    file: &SourceFile,
) -> Result<usize, AllocError>
    requires uncommented { has_comments asked.now.ignored ≡ false }
    requires kept { abandoned asked.now.profile file.now.bytes ≡ None }
    ensures text { OnOk result (text.new.items ≡ text.old.items ++ flat_map plain_line (reported_by asked.now line.now file.now)) }
    ensures tokens { IfOk result (λ count. count ≡ tokens_in (file_rules asked.now.profile file.now)) }
{
    let joined = joined_lines(alloc, asked.profile, file.bytes.as_slice())?;
    if are_rising(joined.lines(), joined.open_at()) {
        tell_joined(alloc, asked, text, file.name.as_slice(), &joined)
    } else {
        tell_whole(alloc, asked, line, text, file)
    }
}

/// Whether each of these lines, and then the one that is open at the end, has a greater number than the one before. In a
/// file of 2^32 lines they have not, as no number is greater than 2^32 - 1.
fn are_rising(lines: &[JoinedLine<'_>], open_at: Option<u32>) -> bool
    ensures { result ≡ are_rising 0 lines.now open_at }
{
    let mut last = 0;
    for line in lines {
        if line.number() <= last {
            return false;
        }
        last = line.number();
    }
    is_open_after(last, open_at)
}

/// Whether the number of a line that is open, if there is one, is greater than another.
fn is_open_after(last: u32, open_at: Option<u32>) -> bool
    ensures { result ≡ is_open_after last open_at }
{
    match open_at {
        None => true,
        Some(number) => last < number,
    }
}

/// Adds what is told of a file whose lines are read all at once, and counts the tokens that are left in its rules.
#[tactic(auto, using(crate::proofs::Telling::whole_told, crate::proofs::Telling::whole_counted))]
fn tell_whole(
    alloc: Global,
    asked: &Asked<'_>,
    line: &Line<'_>,
    text: &mut Vec<u8>,
    file: &SourceFile,
) -> Result<usize, AllocError>
    ensures text { OnOk result (text.new.items ≡ text.old.items ++ flat_map plain_line (reported_by asked.now line.now file.now)) }
    ensures tokens { IfOk result (λ count. count ≡ tokens_in (file_rules asked.now.profile file.now)) }
{
    let reads = read_files(alloc, line, from_ref(file))?;
    let Counted {
        diagnostics,
        tokens,
    } = rules_reported(alloc, asked, &reads)?;
    let mut lines = formatted(alloc, Format::Plain, &diagnostics)?;
    text.append(&mut lines)?;
    Ok(tokens)
}
