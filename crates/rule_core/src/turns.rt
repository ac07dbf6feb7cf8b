//! The order in which the parts of a rule that act are evaluated, and those that assign.
//!
//! Each part has a number, its turn, so that a stable sort by turns gives the order.
ghost use Rattle.std.specs.Prelude.{◌≡◌, ◌≤◌, OnOk};
ghost use Rattle.text_bytes.specs.declared.profile.Profile.TheVariants.{Manual, Udev};
ghost use Rattle.rule_core.specs.Turns.{acts_by_turn, assignments_by_turn, is_rendered_late, turn_of_act};
ghost use Rattle.rule_core.specs.Turns.{turn_of_assignment, turn_of_target};

use rule_tokens::is_substituted;
use rule_types::{Act, ActKind, Assignment, Change, Import, RuleOption, RunType, Target, mode_of};
use std::alloc::AllocError;
use text_bytes::Profile;

/// Sorts acts into the order of evaluation; those of one turn keep their order.
pub(crate) fn sort_acts(acts: &mut Vec<Act>) -> Result<(), AllocError>
    ensures { OnOk result (acts.new.items ≡ acts_by_turn acts.old.items) }
{
    acts.sort_by_key(|act| turn_of_act(act))?;
    Ok(())
}

/// Sorts assignments into the order of evaluation; those of one turn keep their order.
pub(crate) fn sort_assignments(
    profile: Profile,
    assignments: &mut Vec<Assignment>,
) -> Result<(), AllocError>
    ensures { OnOk result (assignments.new.items ≡ assignments_by_turn profile assignments.old.items) }
{
    match profile {
        Profile::Manual => sort_by_manual(assignments),
        Profile::Udev => sort_by_udev(assignments),
    }
}

/// The same by the manual.
fn sort_by_manual(assignments: &mut Vec<Assignment>) -> Result<(), AllocError>
    ensures { OnOk result (assignments.new.items ≡ assignments_by_turn Manual assignments.old.items) }
{
    assignments.sort_by_key(|assignment| turn_of_assignment(assignment))?;
    Ok(())
}

/// The same for udev.
fn sort_by_udev(assignments: &mut Vec<Assignment>) -> Result<(), AllocError>
    ensures { OnOk result (assignments.new.items ≡ assignments_by_turn Udev assignments.old.items) }
{
    assignments.sort_by_key(|assignment| udev_turn_of_assignment(assignment))?;
    Ok(())
}

/// The turn of an act: TEST, then PROGRAM, then IMPORT by its type.
fn turn_of_act(act: &Act) -> u8
    ensures { result ≡ turn_of_act act.now }
{
    match &act.kind {
        ActKind::Test(_, _) => 0,
        ActKind::Program(_) => 1,
        ActKind::Import(import) => match import {
            Import::File(_) => 2,
            Import::Program(_) => 3,
            Import::Builtin(_) => 4,
            Import::Db(_) => 5,
            Import::Cmdline(_) => 6,
            Import::Parent(_, _) => 7,
        },
    }
}

/// The turn of an assignment by the manual: OPTIONS, then the texts by their keys, then RUN.
fn turn_of_assignment(assignment: &Assignment) -> u8
    ensures { result ≡ turn_of_assignment Manual assignment.now }
{
    match &assignment.change {
        Change::Option(_) => 0,
        Change::Text(target, _) => turn_of_target(target),
        Change::Run(_, _) => 11,
    }
}

/// The same for udev: OPTIONS one by one, then the texts by their keys and by when they are known, then RUN by its
/// type, builtins before programs. OWNER, GROUP and MODE that are known when the rule is read come right after those
/// that are rendered for each event.
fn udev_turn_of_assignment(assignment: &Assignment) -> u8
    ensures { result ≡ turn_of_assignment Udev assignment.now }
{
    match &assignment.change {
        Change::Option(known) => match known {
            RuleOption::KeepEscapes => 0,
            RuleOption::ReplaceEscapes => 1,
            RuleOption::DbPersist => 2,
            RuleOption::Watch => 3,
            RuleOption::NoWatch => 3,
            RuleOption::LinkPriority(_) => 4,
            RuleOption::LogLevel | RuleOption::Ignored => 5,
        },
        Change::Text(target, template) => {
            let turn = turn_of_target(target);
            if is_rendered_late(target, template.written()) {
                5 + turn
            } else {
                8 + turn
            }
        }
        Change::Run(Some(RunType::Builtin), _) => 19,
        Change::Run(_, _) => 20,
    }
}

/// Whether udev renders a text of OWNER, GROUP or MODE for each event.
fn is_rendered_late(target: &Target, text: &[u8]) -> bool
    ensures { result ≡ is_rendered_late target.now text.now }
{
    match target {
        Target::Owner | Target::Group => is_substituted(text),
        Target::Mode => mode_of(text).is_none(),
        _ => false,
    }
}

/// The turn of an assignment of a text, by its key.
fn turn_of_target(target: &Target) -> u8
    ensures value { result ≡ turn_of_target target.now }
    ensures small { result ≤ 10 }
{
    match target {
        Target::Owner => 1,
        Target::Group => 2,
        Target::Mode => 3,
        Target::Tag => 4,
        Target::Seclabel(_) => 5,
        Target::Env(_) => 6,
        Target::Name => 7,
        Target::Symlink => 8,
        Target::Attr(_) => 9,
        Target::Sysctl(_) => 10,
    }
}
