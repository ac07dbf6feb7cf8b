//! Matches of the event and of the result of the last program, and what they met.
ghost use Rattle.std.specs.Prelude.{◌≡◌, ◌++◌, IfOk, OnOk};
ghost use Rattle.eval_courses.specs.Inner.{subject_of};
ghost use Rattle.eval_courses.specs.Looks.{looked, met};

use crate::keys::Written;
use crate::subjects::{Subject, push_looked};
use std::alloc::{AllocError, Global};
use text_bytes::Bytes;

/// Appends to a text whether a rule goes on.
pub(crate) fn push_met(text: &mut Vec<u8>, proceeds: bool) -> Result<(), AllocError>
    ensures { OnOk result (text.new.items ≡ text.old.items ++ met proceeds) }
{
    if proceeds {
        text.extend_from_slice(b": holds, ")
    } else {
        text.extend_from_slice(b": fails, ")
    }
}

/// A match, whether it holds, and what it looks at.
pub(crate) fn match_report<P: Written>(
    alloc: Global,
    part: &P,
    holds: bool,
    subject: &Subject<'_, '_>,
) -> Result<Bytes, AllocError>
    ensures { IfOk result (λ text. text ≡ P.written part.now ++ met holds ++ looked (subject_of subject.now)) }
{
    let mut text = Vec::new(alloc);
    part.push_written(alloc, &mut text)?;
    push_met(&mut text, holds)?;
    push_looked(alloc, &mut text, subject)?;
    Ok(Bytes::new(text))
}
