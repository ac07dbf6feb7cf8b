//! Which diagnostics the codes in comments silence.
//!
//! They are looked up in tables, so that a file with many comments and many faults is searched only once.
ghost use Rattle.std.specs.Prelude.{◌≡◌, ◌||◌, ℕ, IfOk, OnOk};
ghost use Rattle.std.specs.List.{list_any};
ghost use Rattle.text_bytes.specs.Text.{Text};
ghost use Rattle.text_tables.specs.Texts.{is_among, same_text};
ghost use Rattle.engine_formats.specs.Diagnostics.{DiagnosticValue, shown};
ghost use Rattle.engine_checks.specs.Tables.{are_silencing, has_code_at, is_file, is_in_file, is_next_at, next_line};
ghost use Rattle.engine_checks.specs.Reported.{is_silenced};

use crate::ignores::{Ignore, Scope};
use crate::line_codes::LineCodes;
use engine_formats::Diagnostic;
use std::alloc::{AllocError, Global};
use text_tables::Texts;

/// The codes that comments ask to ignore.
#[derive(Drop)]
pub(crate) struct Silenced<'a> {
    /// Those in the whole file.
    pub(crate) in_file: Texts<'a>,
    /// Those at one rule each, by the line in which it begins.
    pub(crate) at_lines: LineCodes<'a>,
}

impl<'a> Silenced<'a> {
    /// The codes that these comments ask to ignore.
    pub(crate) fn by(alloc: Global, ignores: &[Ignore<'a>]) -> Result<Silenced<'a>, AllocError>
        ensures { IfOk result (λ s. (d : DiagnosticValue) → are_silencing s.in_file s.at_lines d ≡ is_silenced ignores.now d) }
    {
        Ok(Silenced {
            in_file: codes_in_file(alloc, ignores)?,
            at_lines: codes_at_lines(alloc, ignores)?,
        })
    }

    /// Whether a diagnostic is silenced.
    pub(crate) fn has(&self, diagnostic: &Diagnostic<'_>) -> bool
        ensures { result ≡ are_silencing self.now.in_file self.now.at_lines (shown diagnostic.now) }
    {
        let code = diagnostic.remark.code();
        self.in_file.contains(code) || self.at_lines.has(diagnostic.begins, code)
    }
}

/// Whether a comment is about the whole file.
pub(crate) fn is_file(scope: Scope) -> bool
    ensures { result ≡ is_file scope }
{
    match scope {
        Scope::File => true,
        _ => false,
    }
}

/// The line that a comment is about.
pub(crate) fn next_line(scope: Scope) -> Option<u32>
    ensures { result ≡ next_line scope }
{
    match scope {
        Scope::Next(next) => next,
        _ => None,
    }
}

/// Adds a text, unless it is there already.
pub(crate) fn add_text<'a>(texts: &mut Texts<'a>, text: &'a [u8]) -> Result<(), AllocError>
    ensures { OnOk result ((other : Text) → is_among texts.new other ≡ (is_among texts.old other || same_text other text.now)) }
{
    texts.add(text)?;
    Ok(())
}

/// The codes that are ignored in the whole file.
fn codes_in_file<'a>(alloc: Global, ignores: &[Ignore<'a>]) -> Result<Texts<'a>, AllocError>
    ensures { IfOk result (λ codes. (code : Text) → is_among codes code ≡ list_any (is_in_file code) ignores.now) }
{
    let mut codes = Texts::new(alloc);
    for ignore in ignores {
        if is_file(ignore.scope) {
            add_text(&mut codes, ignore.code)?;
        }
    }
    Ok(codes)
}

/// The codes that are ignored at one rule each.
fn codes_at_lines<'a>(alloc: Global, ignores: &[Ignore<'a>]) -> Result<LineCodes<'a>, AllocError>
    ensures { IfOk result (λ codes. (line : ℕ) (code : Text) → has_code_at codes line code ≡ list_any (is_next_at line code) ignores.now) }
{
    let mut codes = LineCodes::new(alloc);
    for ignore in ignores {
        if let Some(line) = next_line(ignore.scope) {
            codes.add(line, ignore.code)?;
        }
    }
    Ok(codes)
}
