//! What is reported for a file.
ghost use Rattle.std.specs.Prelude.{◌≡◌, filter, map, IfOk};
ghost use Rattle.engine_formats.specs.Diagnostics.{shown};
ghost use Rattle.engine_checks.specs.Tables.{is_reported_by};
ghost use Rattle.engine_checks.specs.Reported.{file_reported, is_about_style, is_asked, is_lint};

use crate::by_line::merged;
use crate::comment_remarks::comment_remarks;
use crate::file_text::FileText;
use crate::ignores::Ignore;
use crate::met::Met;
use crate::silenced::Silenced;
use engine_formats::Diagnostic;
use file_catalogue::Remark;
use rule_remarks::Accounts;
use std::alloc::{AllocError, Global};
use std::marker::Model;
use text_bytes::Profile;
use text_tables::Texts;

/// Which remarks are asked for.
#[derive(Drop)]
pub struct Asked<'a> {
    /// The profile by which rules are read.
    pub profile: Profile,
    /// The users and the groups that are known.
    pub accounts: Accounts,
    /// Whether those about style are reported.
    pub style: bool,
    /// Whether lints are reported.
    pub lint: bool,
    /// The codes of those that are not reported; `comments` among them says that comments in the files count, too.
    pub ignored: Texts<'a>,
}

impl<'a> Model for Asked<'a> {
    ghost use Rattle.engine_checks.specs.Reported as reported;

    ghost Value = { reported.Asked };

    ghost view = { λ a. record { profile = a.profile; accounts = a.accounts; style = a.style; lint = a.lint; ignored = a.ignored } };
}

/// Whether a remark is a message about style.
fn is_about_style(remark: Remark) -> bool
    ensures { result ≡ is_about_style remark }
{
    match remark {
        Remark::Message(kind) => kind.is_style(),
        _ => false,
    }
}

/// Whether a remark is a lint.
fn is_lint(remark: Remark) -> bool
    ensures { result ≡ is_lint remark }
{
    match remark {
        Remark::Lint(_) | Remark::DatabaseLint(_) => true,
        _ => false,
    }
}

/// Whether a remark is asked for.
pub(crate) fn is_asked(asked: &Asked<'_>, remark: Remark) -> bool
    ensures { result ≡ is_asked asked.now remark }
{
    (!is_lint(remark) || asked.lint)
        && (asked.style || !is_about_style(remark))
        && !asked.ignored.contains(remark.code())
}

/// Whether what was found is reported.
fn is_reported(asked: &Asked<'_>, silenced: &Silenced<'_>, diagnostic: &Diagnostic<'_>) -> bool
    ensures { result ≡ is_reported_by asked.now silenced.now.in_file silenced.now.at_lines (shown diagnostic.now) }
{
    is_asked(asked, diagnostic.remark) && !silenced.has(diagnostic)
}

/// Those of diagnostics that are reported.
fn keep_reported<'a>(
    asked: &Asked<'_>,
    silenced: &Silenced<'_>,
    mut found: Vec<Diagnostic<'a>>,
) -> Vec<Diagnostic<'a>>
    ensures { result.items ≡ filter (λ d.
        is_reported_by asked.now silenced.now.in_file silenced.now.at_lines (shown d)) found.entry.items }
{
    found.retain(|diagnostic| is_reported(asked, silenced, diagnostic));
    found
}

/// Those of remarks on comments that are asked for.
fn keep_asked<'r>(asked: &Asked<'_>, mut remarks: Vec<Diagnostic<'r>>) -> Vec<Diagnostic<'r>>
    ensures { result.items ≡ filter (λ r. is_asked asked.now r.remark) remarks.entry.items }
{
    remarks.retain(|remark| is_asked(asked, remark.remark));
    remarks
}

/// The diagnostics to show for a file, from what was found in it and the codes in its comments.
#[tactic(auto, unfolding(crate::specs::Reported::file_reported))]
pub(crate) fn file_reported<'r>(
    alloc: Global,
    asked: &Asked<'_>,
    file: &'r FileText<'_>,
    ignores: &[Ignore<'_>],
    found: Vec<Diagnostic<'r>>,
) -> Result<Vec<Diagnostic<'r>>, AllocError>
    ensures { IfOk result (λ reported. map shown reported.items
        ≡ file_reported asked.now file.now ignores.now (map shown found.entry.items)) }
{
    let met = Met::of(alloc, &found)?;
    let remarks = keep_asked(asked, comment_remarks(alloc, file, &met, ignores)?);
    let silenced = Silenced::by(alloc, ignores)?;
    merged(alloc, keep_reported(asked, &silenced, found), remarks)
}
