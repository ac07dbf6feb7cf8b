//! Diagnostics as a log of static analysis, as SARIF 2.1.0 has it.
ghost use Rattle.std.specs.Prelude.{◌≡◌, ◌∷◌, ◌++◌, [], codes, map, flat_map, IfOk, OnOk};
ghost use Rattle.engine_sessions.specs.Places.{word_part};
ghost use Rattle.json.specs.Json.{string};
ghost use Rattle.json.specs.Token as token;
ghost use Rattle.json.specs.Tree.{json_tokens};
ghost use Rattle.engine_formats.specs.Diagnostics.{shown};
ghost use Rattle.engine_formats.specs.Fingerprints.{shown_given};
ghost use Rattle.text_json.specs.Values.{array_of, object_of};
ghost use Rattle.file_catalogue.specs.Catalogue.{text_of};
ghost use Rattle.engine_formats.specs.Sarif.{log_object, message_byte, message_object, message_text, place_object, region_object};
ghost use Rattle.engine_formats.specs.Sarif.{result_object, rule_object, run_object, sarif_log, tool_object};
ghost use Rattle.engine_formats.specs.Tokens.{result_tokens, rule_tokens};

use crate::columns::Counted;
use crate::diagnostic::Diagnostic;
use crate::fingerprints::{Fingerprinted, with_fingerprints};
use crate::json_members::write_text;
use crate::uris::uri_of;
use engine_sessions::push_word;
use file_catalogue::Remark;
use json::Writer;
use std::alloc::{AllocError, Global};
use text_json::{write_number, write_word};

/// Where the schema of a log is.
const SCHEMA: &str =
    "https://docs.oasis-open.org/sarif/sarif/v2.1.0/errata01/os/schemas/sarif-schema-2.1.0.json";

/// The log of diagnostics in the order given, on one line, with these remarks as its rules.
#[tactic(auto, unfolding(crate::specs::Sarif::sarif_log))]
pub(crate) fn sarif_log(
    alloc: Global,
    remarks: &[Remark],
    diagnostics: &[Diagnostic<'_>],
) -> Result<Vec<u8>, AllocError>
    ensures { IfOk result (λ text. text.items ≡ sarif_log remarks.now (map shown diagnostics.now)) }
{
    let given = with_fingerprints(alloc, diagnostics)?;
    let mut writer = Writer::new(Vec::new(alloc));
    write_log(alloc, &mut writer, remarks, &given)?;
    let mut text = writer.into_inner();
    text.push(b'\n')?;
    Ok(text)
}

/// Writes the log of a run.
fn write_log(
    alloc: Global,
    writer: &mut Writer,
    remarks: &[Remark],
    given: &[Fingerprinted<'_, '_>],
) -> Result<(), AllocError>
    ensures tokens { OnOk result (writer.new.tokens ≡ writer.old.tokens ++ json_tokens (log_object remarks.now (map shown_given given.now))) }
    ensures before { OnOk result (writer.new.before ≡ writer.old.before) }
{
    writer.begin_object()?;
    write_word(writer, "$schema", SCHEMA)?;
    write_word(writer, "version", "2.1.0")?;
    writer.key("runs")?;
    writer.begin_array()?;
    write_run(alloc, writer, remarks, given)?;
    writer.end_array()?;
    writer.end_object()?;
    Ok(())
}

/// Writes a run.
fn write_run(
    alloc: Global,
    writer: &mut Writer,
    remarks: &[Remark],
    given: &[Fingerprinted<'_, '_>],
) -> Result<(), AllocError>
    ensures tokens { OnOk result (writer.new.tokens ≡ writer.old.tokens ++ json_tokens (run_object remarks.now (map shown_given given.now))) }
    ensures before { OnOk result (writer.new.before ≡ writer.old.before) }
{
    writer.begin_object()?;
    writer.key("tool")?;
    write_tool(alloc, writer, remarks)?;
    write_word(writer, "columnKind", "unicodeCodePoints")?;
    writer.key("results")?;
    write_results(alloc, writer, given)?;
    writer.end_object()?;
    Ok(())
}

/// Writes the program and what its diagnostics can be about.
fn write_tool(alloc: Global, writer: &mut Writer, remarks: &[Remark]) -> Result<(), AllocError>
    ensures tokens { OnOk result (writer.new.tokens ≡ writer.old.tokens ++ json_tokens (tool_object remarks.now)) }
    ensures before { OnOk result (writer.new.before ≡ writer.old.before) }
{
    writer.begin_object()?;
    writer.key("driver")?;
    writer.begin_object()?;
    write_word(writer, "name", "devdry")?;
    writer.key("rules")?;
    write_rules(alloc, writer, remarks)?;
    writer.end_object()?;
    writer.end_object()?;
    Ok(())
}

/// Writes an array of rules.
fn write_rules(alloc: Global, writer: &mut Writer, remarks: &[Remark]) -> Result<(), AllocError>
    ensures tokens { OnOk result (writer.new.tokens ≡ writer.old.tokens ++ json_tokens (array_of (map rule_object remarks.now))) }
    ensures before { OnOk result (writer.new.before ≡ writer.old.before) }
{
    writer.begin_array()?;
    write_each_rule(alloc, writer, remarks)?;
    writer.end_array()?;
    Ok(())
}

/// Writes rules, one after another.
fn write_each_rule(alloc: Global, writer: &mut Writer, remarks: &[Remark]) -> Result<(), AllocError>
    ensures tokens { OnOk result (writer.new.tokens ≡ writer.old.tokens ++ flat_map rule_tokens remarks.now) }
    ensures before { OnOk result (writer.new.before ≡ writer.old.before) }
{
    for remark in remarks {
        write_rule(alloc, writer, *remark)?;
    }
    Ok(())
}

/// Writes a rule: what a remark says, and how to fix it.
fn write_rule(alloc: Global, writer: &mut Writer, remark: Remark) -> Result<(), AllocError>
    ensures tokens { OnOk result (writer.new.tokens ≡ writer.old.tokens ++ rule_tokens remark) }
    ensures before { OnOk result (writer.new.before ≡ writer.old.before) }
{
    writer.begin_object()?;
    write_text(alloc, writer, "id", remark.code())?;
    write_message(alloc, writer, "shortDescription", remark.text())?;
    write_message(alloc, writer, "fullDescription", remark.advice())?;
    write_message(alloc, writer, "help", remark.advice())?;
    writer.key("defaultConfiguration")?;
    writer.begin_object()?;
    write_word(writer, "level", remark.severity().word())?;
    writer.end_object()?;
    writer.end_object()?;
    Ok(())
}

/// Writes a member with a message.
fn write_message(
    alloc: Global,
    writer: &mut Writer,
    key: &str,
    text: &[u8],
) -> Result<(), AllocError>
    ensures tokens { OnOk result (writer.new.tokens ≡ writer.old.tokens ++ token.key key.now ∷ json_tokens (message_object text.now)) }
    ensures before { OnOk result (writer.new.before ≡ writer.old.before) }
{
    let said = message_text(alloc, text)?;
    writer.key(key)?;
    writer.begin_object()?;
    write_text(alloc, writer, "text", &said)?;
    writer.end_object()?;
    Ok(())
}

/// A text as a message has it, with each brace twice.
fn message_text(alloc: Global, text: &[u8]) -> Result<Vec<u8>, AllocError>
    ensures { IfOk result (λ said. said.items ≡ message_text text.now) }
{
    let mut said = Vec::with_capacity(alloc, text.len())?;
    for byte in text {
        push_message_byte(&mut said, *byte)?;
    }
    Ok(said)
}

/// Appends a byte of a message.
fn push_message_byte(said: &mut Vec<u8>, byte: u8) -> Result<(), AllocError>
    ensures { OnOk result (said.new.items ≡ said.old.items ++ message_byte byte) }
{
    match byte {
        b'{' | b'}' => said.extend_from_slice(&[byte, byte]),
        _ => Ok(said.push(byte)?),
    }
}

/// Writes an array of results.
fn write_results(
    alloc: Global,
    writer: &mut Writer,
    given: &[Fingerprinted<'_, '_>],
) -> Result<(), AllocError>
    ensures tokens { OnOk result (writer.new.tokens ≡ writer.old.tokens ++ json_tokens (array_of (map result_object (map shown_given given.now)))) }
    ensures before { OnOk result (writer.new.before ≡ writer.old.before) }
{
    writer.begin_array()?;
    write_each_result(alloc, writer, given)?;
    writer.end_array()?;
    Ok(())
}

/// Writes results, one after another.
fn write_each_result(
    alloc: Global,
    writer: &mut Writer,
    given: &[Fingerprinted<'_, '_>],
) -> Result<(), AllocError>
    ensures tokens { OnOk result (writer.new.tokens ≡ writer.old.tokens ++ flat_map result_tokens (map shown_given given.now)) }
    ensures before { OnOk result (writer.new.before ≡ writer.old.before) }
{
    let mut counted = Counted::new();
    for one in given {
        write_result(alloc, writer, &mut counted, one)?;
    }
    Ok(())
}

/// Writes the result of a diagnostic.
fn write_result<'a>(
    alloc: Global,
    writer: &mut Writer,
    counted: &mut Counted<'a>,
    given: &Fingerprinted<'_, 'a>,
) -> Result<(), AllocError>
    ensures tokens { OnOk result (writer.new.tokens ≡ writer.old.tokens ++ result_tokens (shown_given given.now)) }
    ensures before { OnOk result (writer.new.before ≡ writer.old.before) }
{
    let diagnostic = given.diagnostic;
    let remark = diagnostic.remark;
    let said = what_is_said(alloc, remark, diagnostic.word.as_slice())?;
    writer.begin_object()?;
    write_text(alloc, writer, "ruleId", remark.code())?;
    write_word(writer, "level", remark.severity().word())?;
    write_message(alloc, writer, "message", &said)?;
    writer.key("locations")?;
    writer.begin_array()?;
    write_place(alloc, writer, counted, diagnostic)?;
    writer.end_array()?;
    write_fingerprint(writer, &given.fingerprint)?;
    writer.end_object()?;
    Ok(())
}

/// What a remark says about a word, without its code: `bad substitution: WORD`.
fn what_is_said(alloc: Global, remark: Remark, word: &[u8]) -> Result<Vec<u8>, AllocError>
    ensures { IfOk result (λ text. text.items ≡ text_of remark ++ word_part word.now) }
{
    let mut text = Vec::from_slice(alloc, remark.text())?;
    push_word(alloc, &mut text, word)?;
    Ok(text)
}

/// Writes a member with a fingerprint.
fn write_fingerprint(writer: &mut Writer, fingerprint: &str) -> Result<(), AllocError>
    ensures tokens { OnOk result (writer.new.tokens ≡ writer.old.tokens
        ++ token.key (codes "partialFingerprints") ∷ json_tokens (object_of ((codes "devdryLine/v1", string fingerprint.now) ∷ []))) }
    ensures before { OnOk result (writer.new.before ≡ writer.old.before) }
{
    writer.key("partialFingerprints")?;
    writer.begin_object()?;
    write_word(writer, "devdryLine/v1", fingerprint)?;
    writer.end_object()?;
    Ok(())
}

/// Writes where a diagnostic is.
fn write_place<'a>(
    alloc: Global,
    writer: &mut Writer,
    counted: &mut Counted<'a>,
    diagnostic: &Diagnostic<'a>,
) -> Result<(), AllocError>
    ensures tokens { OnOk result (writer.new.tokens ≡ writer.old.tokens ++ json_tokens (place_object (shown diagnostic.now))) }
    ensures before { OnOk result (writer.new.before ≡ writer.old.before) }
{
    let uri = uri_of(alloc, diagnostic.path)?;
    writer.begin_object()?;
    writer.key("physicalLocation")?;
    writer.begin_object()?;
    writer.key("artifactLocation")?;
    writer.begin_object()?;
    write_text(alloc, writer, "uri", &uri)?;
    writer.end_object()?;
    writer.key("region")?;
    write_region(writer, counted, diagnostic)?;
    writer.end_object()?;
    writer.end_object()?;
    Ok(())
}

/// Writes where in its file a diagnostic is.
fn write_region<'a>(
    writer: &mut Writer,
    counted: &mut Counted<'a>,
    diagnostic: &Diagnostic<'a>,
) -> Result<(), AllocError>
    ensures tokens { OnOk result (writer.new.tokens ≡ writer.old.tokens ++ json_tokens (region_object (shown diagnostic.now))) }
    ensures before { OnOk result (writer.new.before ≡ writer.old.before) }
{
    let begins = counted.move_to(diagnostic.source, diagnostic.column);
    let ends = counted.character_column(diagnostic.source, diagnostic.end);
    writer.begin_object()?;
    write_number(writer, "startLine", diagnostic.line)?;
    write_number(writer, "startColumn", begins)?;
    write_number(writer, "endColumn", ends)?;
    writer.end_object()?;
    Ok(())
}
