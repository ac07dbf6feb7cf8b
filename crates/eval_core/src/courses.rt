//! The course of a rule: what is known about it before it is looked at.
//!
//! For many rules what is seen of an event decides how they end, and that they change nothing, or only forget which
//! device was selected: those that are only a label or a jump, those that first ask for an action, those that jump if
//! the event has something other than one text, and those that search for a device with something that no device of
//! the chain has. For an event by udev's profile nothing is foretold: there each rule is looked at.
ghost use Rattle.std.specs.Prelude.{◌≡◌, map, IfOk};
ghost use Rattle.eval_core.specs.Courses.{checked_course, course_after, course_of, guard_in, guarded, last_mark, part_mark, predicted};
ghost use Rattle.eval_core.specs.Courses.{predicted_by, search_in, searched, thing_of, told, told_by, unequal_check};

use crate::actions::{ByAction, by_action, has_no_more};
use crate::checks::{Check, check_of, choice_check};
use crate::marks::{DRIVER, MarkSet, SUBSYSTEM, mark};
use crate::seen::is_ruled_out;
use crate::sketches::{exact_sketch, sketch};
use rule_types::{MatchOperator, PlainMatch, Rule, UpKey, UpMatch};
use std::alloc::{AllocError, Global};
use text_bytes::{Bytes, Profile};

/// What is known about a rule before it is looked at.
#[derive(Clone, Copy)]
pub(crate) enum Course {
    /// Nothing.
    Open,
    /// It has no parts: its end is reached.
    Bare,
    /// It begins with a match of the action.
    Action(ByAction),
    /// It begins with a match of the event by `==`: if the check fails, it changes nothing.
    First(Check),
    /// It is one match of the event by `!=`: if the check fails, its end is reached.
    Guard(Check),
    /// It searches for one device, with no match of the event: if this mark is missing, none is found.
    Search(usize),
}

/// The outcome of a rule, as far as it follows from what is seen of an event.
#[derive(Clone, Copy)]
pub(crate) enum Fate {
    /// It is not known.
    Unknown,
    /// Nothing is changed, and its end is not reached.
    Failed,
    /// Its end is reached, and nothing is changed.
    Reached,
    /// It searches for a device and finds none.
    NotFound,
}

/// A check of a match by `!=`; one by `==` has none.
fn unequal_check(operator: MatchOperator, check: Option<Check>) -> Option<Check>
    ensures { result ≡ unequal_check operator check }
{
    match operator {
        MatchOperator::Equal => None,
        MatchOperator::NotEqual => check,
    }
}

/// The course of a rule that is one match of the event, if it has a check.
fn guarded(check: Option<Check>) -> Course
    ensures { result ≡ guarded check }
{
    match check {
        None => Course::Open,
        Some(check) => Course::Guard(check),
    }
}

/// The course of a rule that searches for one device, if there is a mark that this device has.
fn searched(mark: Option<usize>) -> Course
    ensures { result ≡ searched mark }
{
    match mark {
        None => Course::Open,
        Some(mark) => Course::Search(mark),
    }
}

/// The number for what a key looks at, if it has marks.
fn thing_of(key: &UpKey) -> Option<u64>
    ensures { result ≡ thing_of key.now }
{
    match key {
        UpKey::Subsystems => Some(SUBSYSTEM),
        UpKey::Drivers => Some(DRIVER),
        UpKey::Attrs(name) => Some(sketch(name.as_slice())),
        _ => None,
    }
}

/// The mark of what a match asks for, if it has one: one by `!=` asks for none.
fn part_mark(part: &UpMatch) -> Option<usize>
    ensures { result ≡ part_mark part.now }
{
    match part.wanted.operator {
        MatchOperator::Equal => Some(mark(
            thing_of(&part.key)?,
            exact_sketch(&part.wanted.choice)?,
        )),
        MatchOperator::NotEqual => None,
    }
}

/// The mark of what the last of some matches asks for, if it has one.
fn last_mark(parts: &[UpMatch]) -> Option<usize>
    ensures { result ≡ last_mark parts.now }
{
    part_mark(parts.last()?)
}

/// The course of a rule that has no more than these matches of the event.
fn guard_in(names: &[Bytes], parts: &[PlainMatch]) -> Course
    ensures { result ≡ guard_in names.now parts.now }
{
    match parts.split_first() {
        None => Course::Bare,
        Some((part, others)) => {
            if others.is_empty() {
                let check = choice_check(names, &part.key, &part.wanted.choice);
                guarded(unequal_check(part.wanted.operator, check))
            } else {
                Course::Open
            }
        }
    }
}

/// The course of a rule with these matches of the event and these of one device, the first of which is passed
/// separately. The last one mostly asks for what is rarest.
fn search_in(plain: &[PlainMatch], parts: &[UpMatch], part: &UpMatch) -> Course
    ensures { result ≡ search_in plain.now parts.now part.now }
{
    if plain.is_empty() {
        searched(last_mark(parts).or(part_mark(part)))
    } else {
        Course::Open
    }
}

/// The course of a rule whose first match has no check.
fn course_after(names: &[Bytes], rule: &Rule) -> Course
    ensures { result ≡ course_after names.now rule.now }
{
    match rule.up.first() {
        Some(part) => search_in(&rule.plain, &rule.up, part),
        None => {
            if has_no_more(rule) {
                guard_in(names, &rule.plain)
            } else {
                Course::Open
            }
        }
    }
}

/// The course of a rule whose first match is not one of the action.
fn checked_course(names: &[Bytes], rule: &Rule) -> Course
    ensures { result ≡ checked_course names.now rule.now }
{
    match check_of(names, rule) {
        Some(check) => Course::First(check),
        None => course_after(names, rule),
    }
}

/// The course of a rule.
fn course_of(names: &[Bytes], rule: &Rule) -> Course
    ensures { result ≡ course_of names.now rule.now }
{
    match by_action(rule) {
        Some(by) => Course::Action(by),
        None => checked_course(names, rule),
    }
}

/// The course of each rule.
pub(crate) fn courses(
    alloc: Global,
    names: &[Bytes],
    rules: &[Rule],
) -> Result<Vec<Course>, AllocError>
    ensures { IfOk result (λ courses. courses.items ≡ map (course_of names.now) rules.now) }
{
    rules
        .iter()
        .map(|rule| course_of(names, rule))
        .collect(alloc)
}

/// The outcome of a rule whose first match is one of the action, if it is known whether that holds.
fn told(held: Option<bool>, is_guard: bool) -> Fate
    ensures { result ≡ told held is_guard }
{
    match (held, is_guard) {
        (Some(false), _) => Fate::Failed,
        (Some(true), true) => Fate::Reached,
        _ => Fate::Unknown,
    }
}

/// The outcome of a rule whose first match is one of the action, by the action's place among those that are known.
fn told_by(action: Option<usize>, by: &ByAction) -> Fate
    ensures { result ≡ told_by action by.now }
{
    match action {
        None => Fate::Unknown,
        Some(place) => told(by.held.get(place).copied(), by.is_guard),
    }
}

/// The outcome of a rule with a course, as far as it follows from what is seen.
fn predicted(action: Option<usize>, seen: &[Option<u64>], marks: &MarkSet, course: Course) -> Fate
    ensures { result ≡ predicted action seen.now marks.now course }
{
    match course {
        Course::Open => Fate::Unknown,
        Course::Bare => Fate::Reached,
        Course::Action(by) => told_by(action, &by),
        Course::First(check) => {
            if is_ruled_out(seen, check) {
                Fate::Failed
            } else {
                Fate::Unknown
            }
        }
        Course::Guard(check) => {
            if is_ruled_out(seen, check) {
                Fate::Reached
            } else {
                Fate::Unknown
            }
        }
        Course::Search(mark) => {
            if marks.lacks(mark) {
                Fate::NotFound
            } else {
                Fate::Unknown
            }
        }
    }
}

/// The outcome of a rule with a course, by the profile by which it is evaluated: for udev nothing is known.
pub(crate) fn predicted_by(
    profile: Profile,
    action: Option<usize>,
    seen: &[Option<u64>],
    marks: &MarkSet,
    course: Course,
) -> Fate
    ensures { result ≡ predicted_by profile action seen.now marks.now course }
{
    match profile {
        Profile::Manual => predicted(action, seen, marks, course),
        Profile::Udev => Fate::Unknown,
    }
}
