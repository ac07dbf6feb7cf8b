//! What is reported for rules files.
ghost use Rattle.std.specs.Prelude.{◌≡◌, flat_map, map, sum_by, IfOk};
ghost use Rattle.rule_core.specs.Rules.{file_rules};
ghost use Rattle.rule_types.specs.Rules.{tokens_in};
ghost use Rattle.engine_formats.specs.Diagnostics.{shown};
ghost use Rattle.engine_checks.specs.Tables.{rules_reported_by};

use crate::counted::Counted;
use crate::ignores::ignores_beside;
use crate::reads::FileRead;
use crate::reported::{Asked, file_reported};
use crate::rules_found::rules_found;
use rule_core::{joined_lines, sum_of};
use std::alloc::{AllocError, Global};

/// What is reported for rules files, file by file.
pub(crate) fn rules_reported<'r>(
    alloc: Global,
    asked: &Asked<'_>,
    reads: &'r [FileRead<'_>],
) -> Result<Counted<'r>, AllocError>
    ensures reported { IfOk result (λ c. map shown c.diagnostics.items
        ≡ flat_map (rules_reported_by asked.now) reads.now) }
    ensures tokens { IfOk result (λ c. c.tokens ≡ sum_by (λ read. tokens_in (file_rules asked.now.profile read.file)) reads.now) }
{
    let mut reported = Vec::new(alloc);
    let mut tokens = 0;
    for read in reads {
        let Counted {
            diagnostics,
            tokens: more,
        } = reported_for_file(alloc, asked, read)?;
        let mut diagnostics = diagnostics;
        reported.append(&mut diagnostics)?;
        tokens = sum_of(tokens, more)?;
    }
    Ok(Counted {
        diagnostics: reported,
        tokens,
    })
}

/// What is reported for a rules file. Its lines are joined here, for its rules and its comments.
fn reported_for_file<'r>(
    alloc: Global,
    asked: &Asked<'_>,
    read: &'r FileRead<'_>,
) -> Result<Counted<'r>, AllocError>
    ensures reported { IfOk result (λ c. map shown c.diagnostics.items
        ≡ rules_reported_by asked.now read.now) }
    ensures tokens { IfOk result (λ c. c.tokens ≡ tokens_in (file_rules asked.now.profile read.now.file)) }
{
    let file = read.file();
    let joined = joined_lines(alloc, asked.profile, file.bytes.as_slice())?;
    let ignores = ignores_beside(alloc, asked, file, &joined)?;
    let Counted {
        diagnostics,
        tokens,
    } = rules_found(alloc, asked, read, &joined)?;
    Ok(Counted {
        diagnostics: file_reported(alloc, asked, read.text(), &ignores, diagnostics)?,
        tokens,
    })
}
