//! The whole outcome of an event: the notes of searches and assignments come after its own.
ghost use Rattle.std.specs.Prelude.{◌≡◌, IfOk, None};
ghost use Rattle.eval_state.specs.Scenes.{start};
ghost use Rattle.eval_unread.specs.Others.{ask_others};
ghost use Rattle.eval_unread.specs.Unread.{completed, rules_unread, unread, whole_outcome, with_notes};

use crate::given::with_not_given;
use crate::kernel_modes::with_kernel_mode;
use crate::watching::noted_after;
use builtin_devices::Knowledge;
use device_core::Event;
use eval_rules::{Outcome, evaluate_plain};
use eval_state::Notes;
use rule_types::{Rule, RuleSet};
use std::alloc::{AllocError, Global};
use std::mem;
use text_bytes::Profile;

/// An outcome with the notes of the searches and assignments of rules at its event after its own.
fn with_noted<'o, K: Knowledge>(
    alloc: Global,
    rules: &[Rule],
    event: &Event<'_>,
    knowledge: &K,
    mut outcome: Outcome<'o>,
) -> Result<Outcome<'o>, AllocError>
    ensures { IfOk result (λ all. all ≡ with_notes (rules_unread (K.known knowledge.now) None rules.now (start event.now)) outcome.entry) }
{
    let own = mem::replace(&mut outcome.notes, Notes::new(alloc));
    match noted_after(alloc, rules, event, knowledge, own) {
        Ok(notes) => {
            outcome.notes = notes;
            Ok(outcome)
        }
        Err(refused) => {
            drop(outcome);
            Err(refused)
        }
    }
}

/// An outcome with the notes on attributes after its own that udev (systemd 257) would read and a dry run does not: those of
/// devices that the block does not have, or of which it tells nothing, for which ATTRS asks in a rule that no device meets, or the
/// text of an assignment by `$attr`. Of each assignment that is made it is the first such attribute; its substitution is empty. By the
/// manual there are none.
///
/// If none asks for attributes of other devices, they are not evaluated again. If memory runs out, the outcome is dropped.
fn with_unread<'o, K: Knowledge>(
    alloc: Global,
    asks: bool,
    rules: &[Rule],
    event: &Event<'_>,
    knowledge: &K,
    outcome: Outcome<'o>,
) -> Result<Outcome<'o>, AllocError>
    requires { asks ≡ ask_others rules.now }
    ensures { IfOk result (λ all. all ≡ with_notes (unread rules.now (K.known knowledge.now) event.now) outcome.entry) }
{
    if !asks {
        return Ok(outcome);
    }
    match event.profile() {
        Profile::Manual => Ok(outcome),
        Profile::Udev => with_noted(alloc, rules, event, knowledge, outcome),
    }
}

/// An outcome with what its answer tells besides: for udev the notes of searches and assignments on attributes that udev would read and a dry run
/// does not, after its own, then one on a block that gives no attribute of any device, about the first that a match of the rules looks at,
/// and the mode that the kernel gives the node, if no rule set one.
///
/// `asks` says whether the rules ask for attributes of other devices at all, as `ask_others` has it. If memory runs out, the outcome
/// is dropped.
pub fn completed<'o, K: Knowledge>(
    alloc: Global,
    asks: bool,
    rules: &[Rule],
    event: &Event<'_>,
    knowledge: &K,
    outcome: Outcome<'o>,
) -> Result<Outcome<'o>, AllocError>
    requires { asks ≡ ask_others rules.now }
    ensures { IfOk result (λ all. all ≡ completed rules.now (K.known knowledge.now) event.now outcome.entry) }
{
    let unread = with_unread(alloc, asks, rules, event, knowledge, outcome)?;
    let noted = with_not_given(alloc, rules, event, unread)?;
    with_kernel_mode(alloc, event, noted)
}

/// The whole outcome of an event by the rules as they are read: that of `evaluate_plain` with what `completed` adds.
pub fn evaluate_whole<'a, K: Knowledge>(
    alloc: Global,
    asks: bool,
    rules: &'a RuleSet,
    event: &'a Event<'_>,
    knowledge: &K,
) -> Result<Outcome<'a>, AllocError>
    requires { asks ≡ ask_others rules.now }
    ensures { IfOk result (λ whole. whole ≡ whole_outcome rules.now (K.known knowledge.now) event.now) }
{
    let outcome = evaluate_plain(alloc, rules, event, knowledge)?;
    completed(alloc, asks, rules.rules(), event, knowledge, outcome)
}
