//! All that is found in a rules file.
ghost use Rattle.std.specs.Prelude.{◌≡◌, map, IfOk};
ghost use Rattle.rule_core.specs.Counts.{token_count};
ghost use Rattle.rule_core.specs.Lines.{joined_lines};
ghost use Rattle.rule_core.specs.Rules.{file_rules, landed, reading_of};
ghost use Rattle.rule_types.specs.Rules.{tokens_in};
ghost use Rattle.rule_places.specs.Abandoned.{abandoned_findings};
ghost use Rattle.rule_places.specs.Kept.{kept_lines};
ghost use Rattle.engine_formats.specs.Diagnostics.{shown};
ghost use Rattle.engine_checks.specs.Files.{rule_diagnostic};
ghost use Rattle.engine_checks.specs.LinesFound.{read_found};
ghost use Rattle.engine_checks.specs.Tables.{rules_found_by};

use crate::counted::Counted;
use crate::file_text::FileText;
use crate::found::rule_diagnostics;
use crate::lines_found::lines_found;
use crate::reads::FileRead;
use crate::reported::Asked;
use rule_core::{JoinedLines, abandoned_at, read_lines, token_count};
use rule_places::{KeptLines, abandoned_findings};
use std::alloc::{AllocError, Global};

/// All that is found in a rules file, whose joined lines these are: the findings about its rules, and after those of
/// each rule its lints. In a file that is given up nothing but this is found.
pub(crate) fn rules_found<'r>(
    alloc: Global,
    asked: &Asked<'_>,
    read: &'r FileRead<'_>,
    joined: &JoinedLines<'_>,
) -> Result<Counted<'r>, AllocError>
    requires { joined.now ≡ joined_lines asked.now.profile read.now.file.bytes }
    ensures found { IfOk result (λ c. map shown c.diagnostics.items
        ≡ rules_found_by asked.now read.now) }
    ensures tokens { IfOk result (λ c. c.tokens ≡ tokens_in (file_rules asked.now.profile read.now.file)) }
{
    let file = read.file();
    let text = read.text();
    let name = file.name.as_slice();
    let bytes = file.bytes.as_slice();
    match abandoned_at(asked.profile, bytes) {
        Some(number) => found_abandoned(alloc, text, bytes, number),
        None => found_in_lines(alloc, asked, name, text, bytes, joined),
    }
}

/// What is found in a file with these bytes that is given up because of the line with a number.
fn found_abandoned<'r>(
    alloc: Global,
    file: &'r FileText<'_>,
    bytes: &[u8],
    number: u32,
) -> Result<Counted<'r>, AllocError>
    ensures found { IfOk result (λ c. map shown c.diagnostics.items ≡ map (rule_diagnostic file.now) (abandoned_findings bytes.now number)) }
    ensures tokens { IfOk result (λ c. c.tokens ≡ 0) }
{
    let findings = abandoned_findings(alloc, bytes, number)?;
    Ok(Counted {
        diagnostics: rule_diagnostics(alloc, file, findings)?,
        tokens: 0,
    })
}

/// What is found in the joined lines of a file with a name and these bytes, which are read here and nowhere else.
fn found_in_lines<'r>(
    alloc: Global,
    asked: &Asked<'_>,
    name: &[u8],
    file: &'r FileText<'_>,
    bytes: &[u8],
    joined: &JoinedLines<'_>,
) -> Result<Counted<'r>, AllocError>
    ensures found { IfOk result (λ c. map shown c.diagnostics.items
        ≡ read_found asked.now name.now file.now (kept_lines bytes.now)
        (landed (map (reading_of asked.now.profile) joined.now.lines)) joined.now.open_at) }
    ensures tokens { IfOk result (λ c. c.tokens ≡ token_count (landed (map (reading_of asked.now.profile) joined.now.lines))) }
{
    let kept = KeptLines::of(alloc, bytes)?;
    let lines = read_lines(alloc, asked.profile, joined.lines())?;
    let tokens = token_count(&lines)?;
    Ok(Counted {
        diagnostics: lines_found(alloc, asked, name, file, &kept, lines, joined.open_at())?,
        tokens,
    })
}
