//! What is reported for an open document.
ghost use Rattle.std.specs.Prelude.{◌≡◌, ◌++◌, [], ◌∷◌, IfOk, OnOk};
ghost use Rattle.json.specs.Tree.{json_tokens};
ghost use Rattle.text_bytes.specs.declared.source_file.FileKind.TheVariants.{Hwdb};
ghost use Rattle.hwdb_core.specs.Sources.{are_few};
ghost use Rattle.lsp_answers.specs.Documents.{about_whole, document_diagnostics, file_of, kind_of, reported_as, rules_diagnostics};
ghost use Rattle.lsp_answers.specs.Diagnostics.{diagnostic_values};

use crate::settings::Settings;
use crate::writing::write_diagnostics;
use engine_checks::{FileRead, diagnostics_of_database, diagnostics_of_rules};
use hwdb_core::{HwdbFault, read_fitting};
use json::Writer;
use lsp_messages::{Encoding, Position, write_range};
use rule_core::file_as_read;
use std::alloc::{AllocError, Global};
use std::slice::from_ref;
use text_bytes::{Bytes, FileKind, SourceFile};
use text_json::{write_number, write_word};

/// What is said about a file that holds more than a database may.
const TOO_MUCH: &str = "more entries than a database may hold";

/// What a document holds, by how its URI ends: `.hwdb` for a database, anything else for rules.
pub(crate) fn kind_of(uri: &[u8]) -> FileKind
    ensures { result ≡ kind_of uri.now }
{
    if uri.ends_with(FileKind::Hwdb.suffix().as_bytes()) {
        FileKind::Hwdb
    } else {
        FileKind::Rules
    }
}

/// A document as a file, whose name is its URI.
pub(crate) fn file_of(alloc: Global, uri: &[u8], text: &[u8]) -> Result<SourceFile, AllocError>
    ensures { IfOk result (λ file. file ≡ file_of uri.now text.now) }
{
    Ok(SourceFile {
        kind: kind_of(uri),
        rank: 0,
        name: Bytes::copy_of(alloc, uri)?,
        bytes: Bytes::copy_of(alloc, text)?,
    })
}

/// Writes what is reported for a rules file.
fn write_for_rules(
    alloc: Global,
    writer: &mut Writer,
    encoding: Encoding,
    settings: &Settings,
    file: SourceFile,
) -> Result<(), AllocError>
    ensures tokens { OnOk result (writer.new.tokens
        ≡ writer.old.tokens ++ json_tokens (diagnostic_values encoding (rules_diagnostics settings.now file))) }
    ensures before { OnOk result (writer.new.before ≡ writer.old.before) }
{
    let file = file_as_read(alloc, settings.profile, file)?;
    let asked = settings.asked(alloc)?;
    let read = FileRead::at(alloc, file.name.as_slice(), &file)?;
    let found = diagnostics_of_rules(alloc, &asked, &read)?;
    write_diagnostics(alloc, writer, encoding, &found)
}

/// Whether a file holds no more than a database may.
fn is_within(alloc: Global, file: &SourceFile) -> Result<bool, AllocError>
    ensures { IfOk result (λ within. within ≡ are_few (file.now ∷ [])) }
{
    match read_fitting(alloc, from_ref(file), b"") {
        Ok(_) => Ok(true),
        Err(HwdbFault::TooMany) => Ok(false),
        Err(HwdbFault::Memory) => Err(AllocError),
    }
}

/// Writes one diagnostic at the start of a document, in an array, which says what is wrong with all of it.
#[tactic(auto, unfolding(crate::specs::Documents::about_whole))]
pub fn write_about_whole(writer: &mut Writer, said: &str) -> Result<(), AllocError>
    ensures tokens { OnOk result (writer.new.tokens ≡ writer.old.tokens ++ json_tokens (about_whole said.now)) }
    ensures before { OnOk result (writer.new.before ≡ writer.old.before) }
{
    let start = Position {
        line: 0,
        character: 0,
    };
    writer.begin_array()?;
    writer.begin_object()?;
    writer.key("range")?;
    write_range(writer, start, start)?;
    write_number(writer, "severity", 1)?;
    write_word(writer, "source", "devdry")?;
    write_word(writer, "message", said)?;
    writer.end_object()?;
    writer.end_array()?;
    Ok(())
}

/// Writes what is reported for a file of a database.
fn write_for_database(
    alloc: Global,
    writer: &mut Writer,
    encoding: Encoding,
    settings: &Settings,
    file: &SourceFile,
) -> Result<(), AllocError>
    ensures tokens { OnOk result (writer.new.tokens
        ≡ writer.old.tokens ++ json_tokens (reported_as Hwdb encoding settings.now file.now)) }
    ensures before { OnOk result (writer.new.before ≡ writer.old.before) }
{
    if !is_within(alloc, file)? {
        return write_about_whole(writer, TOO_MUCH);
    }
    let asked = settings.asked(alloc)?;
    let read = FileRead::at(alloc, file.name.as_slice(), file)?;
    let found = diagnostics_of_database(alloc, &asked, &read)?;
    write_diagnostics(alloc, writer, encoding, &found)
}

/// Writes what is reported for a document with a URI and a text, as an array of diagnostics: for rules what `verify`
/// reports with these settings, for a database what `update` reports. A file that holds more than a database may gets
/// one diagnostic that says so.
#[tactic(auto, unfolding(crate::specs::Documents::document_diagnostics))]
pub fn write_document_diagnostics(
    alloc: Global,
    writer: &mut Writer,
    encoding: Encoding,
    settings: &Settings,
    uri: &[u8],
    text: &[u8],
) -> Result<(), AllocError>
    ensures tokens { OnOk result (writer.new.tokens
        ≡ writer.old.tokens ++ json_tokens (document_diagnostics encoding settings.now uri.now text.now)) }
    ensures before { OnOk result (writer.new.before ≡ writer.old.before) }
{
    let file = file_of(alloc, uri, text)?;
    match kind_of(uri) {
        FileKind::Rules => write_for_rules(alloc, writer, encoding, settings, file),
        FileKind::Hwdb => write_for_database(alloc, writer, encoding, settings, &file),
    }
}
