//! What an IMPORT looks at, and what is known of the report on it before it is done.
ghost use Rattle.std.specs.Prelude.{◌≡◌, Bool, IfOk, List};
ghost use Rattle.text_tables.specs.Pairs.{Pair, value_of};
ghost use Rattle.eval_courses.specs.Acts.{import_asked, import_report, printed_report};
ghost use Rattle.eval_courses.specs.Inner.{report_after};

use crate::acts::ReportBefore;
use crate::answers::{answer_report, answer_to};
use crate::properties::copied;
use eval_acts::{import_text, names_text};
use eval_effects::push_shown;
use eval_rendering::{MAX_COMMAND_BYTES, MAX_PATH_BYTES, Rendered};
use eval_state::State;
use rule_types::Import;
use std::alloc::{AllocError, Global};
use text_bytes::{Bytes, Profile};

/// The text that an IMPORT looks at, which is empty where nothing is rendered.
pub(crate) fn import_asked(
    alloc: Global,
    from: &Import,
    state: &State<'_>,
) -> Result<Rendered, AllocError>
    ensures { IfOk result (λ text. text ≡ import_asked state.now.event.profile from.now state.now) }
{
    match (state.event.event().profile(), from) {
        (_, Import::Builtin(template)) => import_text(alloc, MAX_COMMAND_BYTES, template, state),
        (Profile::Udev, Import::Program(template)) => {
            import_text(alloc, MAX_COMMAND_BYTES, template, state)
        }
        (Profile::Udev, Import::File(template)) => {
            import_text(alloc, MAX_PATH_BYTES, template, state)
        }
        (Profile::Udev, Import::Parent(_, value)) => names_text(alloc, value.as_slice(), state),
        _ => Ok(Rendered::Text(Bytes::new(Vec::new(alloc)))),
    }
}

/// What is known of the report on an IMPORT{program} of udev's before its answer is taken.
fn printed_report_before(
    alloc: Global,
    command: &[u8],
    state: &State<'_>,
) -> Result<ReportBefore, AllocError>
    ensures { IfOk result (λ o. (noted : Bool) (env : List Pair)
        → report_after o noted env ≡ printed_report command.now (value_of state.now.event.programs command.now) state.now.env env) }
{
    match answer_to(state, command) {
        Some(answer) => {
            let mut start = answer_report(alloc, command, Some(answer))?;
            start.extend_from_slice(b", ")?;
            Ok(ReportBefore::Taking(Bytes::new(start), copied(alloc, &state.env)?))
        }
        None => Ok(ReportBefore::Whole(Bytes::new(answer_report(alloc, command, None)?))),
    }
}

/// What is known of the report on an IMPORT of a text before it is done.
pub(crate) fn import_report_before(
    alloc: Global,
    from: &Import,
    text: &[u8],
    state: &State<'_>,
) -> Result<ReportBefore, AllocError>
    ensures { IfOk result (λ o. (noted : Bool) (env : List Pair)
        → report_after o noted env ≡ import_report state.now.event.profile from.now state.now noted env text.now) }
{
    match (state.event.event().profile(), from) {
        (_, Import::Builtin(_)) => {
            let mut start = Vec::new(alloc);
            push_shown(alloc, &mut start, text)?;
            start.push(b' ')?;
            Ok(ReportBefore::Taking(Bytes::new(start), copied(alloc, &state.env)?))
        }
        (Profile::Udev, Import::Program(_)) => printed_report_before(alloc, text, state),
        _ => Ok(ReportBefore::Importing(copied(alloc, &state.env)?)),
    }
}
