//! Which codes in comments silence nothing that was found in a file, or are unknown.
ghost use Rattle.std.specs.Prelude.{◌≡◌, ℕ, map, IfOk};
ghost use Rattle.std.specs.List.{list_any};
ghost use Rattle.text_bytes.specs.Text.{Text};
ghost use Rattle.text_tables.specs.Texts.{is_among};
ghost use Rattle.engine_formats.specs.Diagnostics.{shown};
ghost use Rattle.engine_checks.specs.Ignores as ignores;
ghost use Rattle.engine_checks.specs.Tables.{has_code, has_code_at, has_code_in, is_met, remark_by};
ghost use Rattle.engine_checks.specs.Reported.{is_unknown, silences};

use crate::codes::is_code;
use crate::ignores::{Ignore, Scope};
use crate::line_codes::LineCodes;
use crate::silenced::{add_text, is_file, next_line};
use engine_formats::Diagnostic;
use file_catalogue::Remark;
use std::alloc::{AllocError, Global};
use text_tables::Texts;

/// The codes of what was found in a file.
#[derive(Drop)]
pub(crate) struct Met {
    /// Those in the whole file.
    pub(crate) in_file: Texts<'static>,
    /// Those at each line for which something is reported.
    pub(crate) at_lines: LineCodes<'static>,
}

impl Met {
    /// The codes of these diagnostics.
    pub(crate) fn of(alloc: Global, found: &[Diagnostic<'_>]) -> Result<Met, AllocError>
        ensures { IfOk result (λ m. (ignore : ignores.Ignore) → is_met m.in_file m.at_lines ignore.scope ignore.code
            ≡ list_any (silences ignore) (map shown found.now)) }
    {
        Ok(Met {
            in_file: codes_in_file(alloc, found)?,
            at_lines: codes_at_lines(alloc, found)?,
        })
    }

    /// Whether a code in a comment silences something.
    fn has(&self, ignore: &Ignore<'_>) -> bool
        ensures { result ≡ is_met self.now.in_file self.now.at_lines ignore.now.scope ignore.now.code }
    {
        if is_file(ignore.scope) {
            return self.in_file.contains(ignore.code);
        }
        match next_line(ignore.scope) {
            Some(line) => self.at_lines.has(line, ignore.code),
            None => false,
        }
    }

    /// The remark on a code in a comment: it is unknown, or it silences nothing.
    pub(crate) fn remark_on(&self, ignore: &Ignore<'_>) -> Option<Remark>
        ensures { result ≡ remark_by self.now.in_file self.now.at_lines ignore.now }
    {
        if is_unknown(ignore.scope, ignore.code) {
            Some(Remark::UnknownCode)
        } else if self.has(ignore) {
            None
        } else {
            Some(Remark::IdleIgnore)
        }
    }
}

/// Whether a code in a comment is unknown, or the comment is not understood.
fn is_unknown(scope: Scope, code: &[u8]) -> bool
    ensures { result ≡ is_unknown scope code.now }
{
    match scope {
        Scope::Unread => true,
        _ => !is_code(code),
    }
}

/// The codes of diagnostics.
fn codes_in_file(alloc: Global, found: &[Diagnostic<'_>]) -> Result<Texts<'static>, AllocError>
    ensures { IfOk result (λ codes. (code : Text) → is_among codes code ≡ list_any (has_code code) (map shown found.now)) }
{
    let mut codes = Texts::new(alloc);
    for diagnostic in found {
        add_text(&mut codes, diagnostic.remark.code())?;
    }
    Ok(codes)
}

/// The codes of diagnostics at the lines for which they are reported.
fn codes_at_lines(alloc: Global, found: &[Diagnostic<'_>]) -> Result<LineCodes<'static>, AllocError>
    ensures { IfOk result (λ codes. (line : ℕ) (code : Text) → has_code_at codes line code ≡ list_any (has_code_in line code) (map shown found.now)) }
{
    let mut codes = LineCodes::new(alloc);
    for diagnostic in found {
        codes.add(diagnostic.begins, diagnostic.remark.code())?;
    }
    Ok(codes)
}
