//! Diagnostics as a report of code quality for GitLab.
ghost use Rattle.std.specs.Prelude.{◌≡◌, ◌++◌, map, flat_map, IfOk, OnOk};
ghost use Rattle.engine_sessions.specs.Places.{word_part};
ghost use Rattle.json.specs.Tree.{json_tokens};
ghost use Rattle.engine_formats.specs.Diagnostics.{shown};
ghost use Rattle.engine_formats.specs.Fingerprints.{shown_given};
ghost use Rattle.engine_formats.specs.Json.{gitlab_location, gitlab_report, gitlab_severity};
ghost use Rattle.engine_formats.specs.Tokens.{issue_tokens};
ghost use Rattle.file_catalogue.specs.Catalogue.{remark_heading};

use crate::diagnostic::Diagnostic;
use crate::fingerprints::{Fingerprinted, with_fingerprints};
use crate::json_members::write_text;
use engine_sessions::push_word;
use file_catalogue::{Remark, Severity};
use json::Writer;
use std::alloc::{AllocError, Global};
use text_json::{write_number, write_word};

/// The report of diagnostics: an array of issues in the order given, on one line.
#[tactic(auto, unfolding(crate::specs::Json::gitlab_report))]
pub(crate) fn gitlab_report(
    alloc: Global,
    diagnostics: &[Diagnostic<'_>],
) -> Result<Vec<u8>, AllocError>
    ensures { IfOk result (λ text. text.items ≡ gitlab_report (map shown diagnostics.now)) }
{
    let given = with_fingerprints(alloc, diagnostics)?;
    let mut writer = Writer::new(Vec::new(alloc));
    writer.begin_array()?;
    write_issues(alloc, &mut writer, &given)?;
    writer.end_array()?;
    let mut text = writer.into_inner();
    text.push(b'\n')?;
    Ok(text)
}

/// Writes the issues of diagnostics.
fn write_issues(
    alloc: Global,
    writer: &mut Writer,
    given: &[Fingerprinted<'_, '_>],
) -> Result<(), AllocError>
    ensures tokens { OnOk result (writer.new.tokens ≡ writer.old.tokens ++ flat_map issue_tokens (map shown_given given.now)) }
    ensures before { OnOk result (writer.new.before ≡ writer.old.before) }
{
    for one in given {
        write_issue(alloc, writer, one)?;
    }
    Ok(())
}

/// Writes the issue of a diagnostic.
#[tactic(auto, unfolding(crate::specs::Tokens::issue_tokens))]
fn write_issue(
    alloc: Global,
    writer: &mut Writer,
    given: &Fingerprinted<'_, '_>,
) -> Result<(), AllocError>
    ensures tokens { OnOk result (writer.new.tokens ≡ writer.old.tokens ++ issue_tokens (shown_given given.now)) }
    ensures before { OnOk result (writer.new.before ≡ writer.old.before) }
{
    let diagnostic = given.diagnostic;
    let remark = diagnostic.remark;
    let said = description(alloc, remark, diagnostic.word.as_slice())?;
    writer.begin_object()?;
    write_text(alloc, writer, "description", &said)?;
    write_text(alloc, writer, "check_name", remark.code())?;
    write_word(writer, "fingerprint", &given.fingerprint)?;
    write_word(writer, "severity", gitlab_severity(remark.severity()))?;
    writer.key("location")?;
    write_location(alloc, writer, diagnostic)?;
    writer.end_object()?;
    Ok(())
}

/// Writes the file and the line of a diagnostic.
fn write_location(
    alloc: Global,
    writer: &mut Writer,
    diagnostic: &Diagnostic<'_>,
) -> Result<(), AllocError>
    ensures tokens { OnOk result (writer.new.tokens ≡ writer.old.tokens ++ json_tokens (gitlab_location (shown diagnostic.now))) }
    ensures before { OnOk result (writer.new.before ≡ writer.old.before) }
{
    writer.begin_object()?;
    write_text(alloc, writer, "path", diagnostic.path)?;
    writer.key("lines")?;
    writer.begin_object()?;
    write_number(writer, "begin", diagnostic.line)?;
    writer.end_object()?;
    writer.end_object()?;
    Ok(())
}

/// What a remark says about a word, with its code: `V6 bad substitution: WORD`.
fn description(alloc: Global, remark: Remark, word: &[u8]) -> Result<Vec<u8>, AllocError>
    ensures { IfOk result (λ text. text.items ≡ remark_heading remark ++ word_part word.now) }
{
    let mut text = Vec::new(alloc);
    remark.push_heading(&mut text)?;
    push_word(alloc, &mut text, word)?;
    Ok(text)
}

/// The word of GitLab for how severe something is.
fn gitlab_severity(severity: Severity) -> &'static str
    ensures { result.now ≡ gitlab_severity severity }
{
    match severity {
        Severity::Error => "major",
        Severity::Warning => "minor",
    }
}
