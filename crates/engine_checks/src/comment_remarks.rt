//! What is to be said about the codes in comments of a file.
ghost use Rattle.std.specs.Prelude.{◌≡◌, ◌++◌, filter_map, map, option_map, option_to_list, IfOk, OnOk};
ghost use Rattle.engine_formats.specs.Diagnostics.{shown};
ghost use Rattle.engine_checks.specs.Tables.{remark_by};
ghost use Rattle.engine_checks.specs.Reported.{comment_diagnostic};

use crate::file_text::FileText;
use crate::ignores::Ignore;
use crate::met::Met;
use engine_formats::Diagnostic;
use file_catalogue::Remark;
use std::alloc::{AllocError, Global};
use text_bytes::Bytes;

/// What is said about a code in a comment, as a diagnostic.
fn comment_diagnostic<'r>(
    alloc: Global,
    file: &'r FileText<'_>,
    ignore: &Ignore<'_>,
    remark: Remark,
) -> Result<Diagnostic<'r>, AllocError>
    ensures { IfOk result (λ d. shown d ≡ comment_diagnostic file.now ignore.now remark) }
{
    Ok(Diagnostic {
        name: file.name(),
        path: file.path(),
        source: file.line(ignore.line),
        begins: ignore.line,
        line: ignore.line,
        column: ignore.column,
        end: ignore.end,
        remark,
        word: Bytes::copy_of(alloc, ignore.code)?,
    })
}

/// Adds what is to be said about a code in a comment, if anything is.
fn push_remark<'r>(
    alloc: Global,
    remarks: &mut Vec<Diagnostic<'r>>,
    file: &'r FileText<'_>,
    ignore: &Ignore<'_>,
    remark: Option<Remark>,
) -> Result<(), AllocError>
    ensures { OnOk result (map shown remarks.new.items ≡ map shown remarks.old.items
        ++ option_to_list (option_map (comment_diagnostic file.now ignore.now) remark)) }
{
    if let Some(remark) = remark {
        remarks.push(comment_diagnostic(alloc, file, ignore, remark)?)?;
    }
    Ok(())
}

/// What is to be said about codes in comments, by what was found in the file.
pub(crate) fn comment_remarks<'r>(
    alloc: Global,
    file: &'r FileText<'_>,
    met: &Met,
    ignores: &[Ignore<'_>],
) -> Result<Vec<Diagnostic<'r>>, AllocError>
    ensures { IfOk result (λ remarks. map shown remarks.items
        ≡ filter_map (λ i. option_map (comment_diagnostic file.now i) (remark_by met.now.in_file met.now.at_lines i)) ignores.now) }
{
    let mut remarks = Vec::new(alloc);
    for ignore in ignores {
        push_remark(alloc, &mut remarks, file, ignore, met.remark_on(ignore))?;
    }
    Ok(remarks)
}
