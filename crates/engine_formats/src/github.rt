//! Diagnostics as workflow commands of GitHub, which shows each at its line.
ghost use Rattle.std.specs.Prelude.{◌≡◌, ◌∷◌, [], ◌++◌, decimal, map, flat_map, IfOk, OnOk};
ghost use Rattle.text_bytes.specs.Names.{newline};
ghost use Rattle.engine_sessions.specs.Places.{word_part};
ghost use Rattle.engine_formats.specs.Diagnostics.{shown};
ghost use Rattle.engine_formats.specs.Github.{github_line, github_place, github_text};
ghost use Rattle.file_catalogue.specs.Catalogue.{text_of};

use crate::diagnostic::Diagnostic;
use crate::github_escapes::{push_github_property, push_github_text};
use engine_sessions::push_word;
use file_catalogue::Remark;
use itoa::Buffer;
use std::alloc::{AllocError, Global};

/// The commands of diagnostics, in the order given.
pub(crate) fn github_lines(
    alloc: Global,
    diagnostics: &[Diagnostic<'_>],
) -> Result<Vec<u8>, AllocError>
    ensures { IfOk result (λ text. text.items ≡ flat_map github_line (map shown diagnostics.now)) }
{
    let mut text = Vec::new(alloc);
    for diagnostic in diagnostics {
        push_github_line(alloc, &mut text, diagnostic)?;
    }
    Ok(text)
}

/// Appends `::error file=PATH,line=LINE,col=COLUMN,endColumn=END,title=V6::bad substitution: WORD` and a newline.
#[tactic(auto, unfolding(crate::specs::Github::github_line))]
fn push_github_line(
    alloc: Global,
    text: &mut Vec<u8>,
    diagnostic: &Diagnostic<'_>,
) -> Result<(), AllocError>
    ensures { OnOk result (text.new.items ≡ text.old.items ++ github_line (shown diagnostic.now)) }
{
    text.extend_from_slice(b"::")?;
    text.extend_from_slice(diagnostic.remark.severity().word().as_bytes())?;
    push_github_place(text, diagnostic)?;
    push_value(text, b",title=", diagnostic.remark.code())?;
    text.extend_from_slice(b"::")?;
    push_said(alloc, text, diagnostic.remark, diagnostic.word.as_slice())
}

/// Appends ` file=PATH,line=LINE,col=COLUMN,endColumn=END`, with the path as it was opened except for what GitHub
/// asks to be written otherwise.
#[tactic(auto, unfolding(crate::specs::Github::github_place))]
fn push_github_place(text: &mut Vec<u8>, diagnostic: &Diagnostic<'_>) -> Result<(), AllocError>
    ensures { OnOk result (text.new.items ≡ text.old.items ++ github_place (shown diagnostic.now)) }
{
    text.extend_from_slice(b" file=")?;
    push_github_property(text, diagnostic.path)?;
    push_number(text, b",line=", diagnostic.line)?;
    push_number(text, b",col=", diagnostic.column)?;
    push_number(text, b",endColumn=", diagnostic.end)
}

/// Appends a property's name and its number.
fn push_number(text: &mut Vec<u8>, name: &[u8], number: u32) -> Result<(), AllocError>
    ensures { OnOk result (text.new.items ≡ text.old.items ++ (name.now ++ decimal number)) }
{
    push_value(text, name, Buffer::new().format(number).as_bytes())
}

/// Appends a property's name and its value, neither of them escaped.
fn push_value(text: &mut Vec<u8>, name: &[u8], value: &[u8]) -> Result<(), AllocError>
    ensures { OnOk result (text.new.items ≡ text.old.items ++ (name.now ++ value.now)) }
{
    text.extend_from_slice(name)?;
    text.extend_from_slice(value)
}

/// Appends what a remark says about a word, as GitHub asks, and a newline.
fn push_said(
    alloc: Global,
    text: &mut Vec<u8>,
    remark: Remark,
    word: &[u8],
) -> Result<(), AllocError>
    ensures { OnOk result (text.new.items ≡ text.old.items ++ (github_text (text_of remark ++ word_part word.now) ++ newline ∷ [])) }
{
    let mut said = Vec::from_slice(alloc, remark.text())?;
    push_word(alloc, &mut said, word)?;
    push_github_text(text, &said)?;
    text.push(b'\n')?;
    Ok(())
}
