//! What is reported of a rule while it is evaluated.
ghost use Rattle.std.specs.Prelude.{◌≡◌, ◌++◌, OnOk};
ghost use Rattle.eval_rules.specs.Moments.{happening};
ghost use Rattle.eval_courses.specs.Inner.{moment_reports};

use crate::plain::match_report;
use crate::skipped::skipped_text;
use crate::subjects::{Subject, plain_subject};
use crate::upward::report_search;
use eval_rendering::{plain_holds, result_holds};
use eval_rules::{Moment, is_idle};
use eval_state::Scene;
use std::alloc::{AllocError, Global};
use text_bytes::Bytes;

/// Adds what is reported of a rule at a moment: of a match of the event or of the result whether it holds and what it
/// looks at; of a match of one device what it meets at each device of the chain, and after all of these which device
/// meets them all, or would if the rule were not skipped, or how many the devices meet that meet some; of a rule that a
/// key stopped `stops there`, and of one that is skipped what of it does nothing for the event, and why.
#[tactic(auto, unfolding(crate::specs::Looks::plain_report, crate::specs::Looks::result_report))]
pub fn report_moment(
    alloc: Global,
    moment: Moment<'_>,
    scene: &Scene<'_>,
    texts: &mut Vec<Bytes>,
) -> Result<(), AllocError>
    ensures { OnOk result (texts.new.items ≡ texts.old.items ++ moment_reports (happening moment.entry) scene.now) }
{
    match moment {
        Moment::Meeting(_, part) => {
            let subject = plain_subject(&part.key, &scene.state);
            texts.push(match_report(alloc, part, plain_holds(part, &scene.state), &subject)?)?
        }
        Moment::Searching(rule) => {
            let idle = is_idle(rule, scene.state.event.event());
            report_search(alloc, idle, &rule.up, &scene.state, texts)?
        }
        Moment::Comparing(_, part) => {
            let subject = Subject::One(scene.state.result.as_slice());
            texts.push(match_report(alloc, part, result_holds(part, &scene.state), &subject)?)?
        }
        Moment::Stopped(_) => texts.push(Bytes::copy_of(alloc, b"stops there")?)?,
        Moment::Skipped(rule) => {
            texts.push(skipped_text(alloc, rule, scene.state.event.event())?)?
        }
        Moment::Passed(_) | Moment::Entered(_) | Moment::Left(_, _) => {}
    }
    Ok(())
}
