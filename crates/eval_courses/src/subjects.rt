//! What matches look at.
ghost use Rattle.std.specs.Prelude.{◌≡◌, ◌++◌, OnOk, map, option_map};
ghost use Rattle.eval_state.specs.Chains.{device_at, kernel_of};
ghost use Rattle.eval_state.specs.Texts.{or_empty};
ghost use Rattle.eval_rendering.specs.Subjects.{members_by, named_constant, plain_subject, tags_at, up_subject};
ghost use Rattle.eval_courses.specs.Inner.{subject_of};
ghost use Rattle.eval_courses.specs.Looks.{looked, members_report, value_report};
ghost use Rattle.eval_courses.specs.Upward.{is_absent};

use eval_effects::push_shown;
use eval_rendering::{
    Attribute, attribute_at, driver_at, event_attribute, is_known_constant, subsystem_at,
};
use eval_state::State;
use rule_types::{PlainKey, UpKey};
use std::alloc::{AllocError, Global};
use text_bytes::Profile;

/// What a match looks at.
#[derive(Drop)]
pub(crate) enum Subject<'s, 'a> {
    /// One text.
    One(&'s [u8]),
    /// The subsystem of the event device, and the profile by which it is compared.
    Subsystem(Profile, &'s [u8]),
    /// An attribute, which may be absent or not read.
    Attribute(Attribute<'a>),
    /// A constant, which may be absent.
    Constant(Option<&'s [u8]>),
    /// Texts as rules left them, and the profile by which they are compared.
    Members(Profile, &'s [Vec<u8>]),
    /// Texts as the event gave them, and the profile by which they are compared.
    Given(Profile, &'a [&'a [u8]]),
    /// An unknown constant.
    Unknown,
    /// What is not read.
    Unread,
}

/// The assigned name, empty if there is none.
fn assigned_name<'s>(state: &'s State<'_>) -> &'s [u8]
    ensures { result.now ≡ or_empty state.now.name }
{
    match &state.name {
        Some(name) => name.as_slice(),
        None => b"",
    }
}

/// What a match of a constant looks at.
fn named_constant<'s, 'a>(name: &[u8], state: &'s State<'a>) -> Subject<'s, 'a>
    ensures { subject_of result ≡ named_constant name.now state.now }
{
    if is_known_constant(name) {
        Subject::Constant(state.event.event().constants().get(name))
    } else {
        Subject::Unknown
    }
}

/// The action of the event.
fn action_of<'s>(state: &'s State<'_>) -> &'s [u8]
    ensures { result.now ≡ state.now.event.action }
{
    state.event.event().action()
}

/// The path of the event device.
fn path_of<'s>(state: &'s State<'_>) -> &'s [u8]
    ensures { result.now ≡ state.now.event.device.path }
{
    state.event.device().path()
}

/// What a match of the event looks at.
pub(crate) fn plain_subject<'s, 'a>(key: &PlainKey, state: &'s State<'a>) -> Subject<'s, 'a>
    ensures { subject_of result ≡ plain_subject key.now state.now }
{
    let profile = state.event.event().profile();
    match key {
        PlainKey::Action => Subject::One(action_of(state)),
        PlainKey::Devpath => Subject::One(path_of(state)),
        PlainKey::Kernel => Subject::One(state.event.kernel()),
        PlainKey::Subsystem => Subject::Subsystem(profile, subsystem_at(state, 0)),
        PlainKey::Driver => Subject::One(driver_at(state, 0)),
        PlainKey::Name => Subject::One(assigned_name(state)),
        PlainKey::Symlink => Subject::Members(profile, state.links.as_slice()),
        PlainKey::Tag => tags_at(state, 0),
        PlainKey::Attr(name) => Subject::Attribute(event_attribute(state, name.as_slice())),
        PlainKey::Sysctl(_) => Subject::Unread,
        PlainKey::Env(name) => Subject::One(state.property(name.as_slice())),
        PlainKey::Const(name) => named_constant(name.as_slice(), state),
    }
}

/// The tags of the device at a place.
fn tags_at<'s, 'a>(state: &'s State<'a>, place: usize) -> Subject<'s, 'a>
    ensures { subject_of result ≡ members_by state.now.event.profile (tags_at state.now place) }
{
    let profile = state.event.event().profile();
    if place == 0 {
        return Subject::Members(profile, state.tags.as_slice());
    }
    match state.event.device_at(place) {
        Some(device) => Subject::Given(profile, device.tags().as_slice()),
        None => Subject::Given(profile, &[]),
    }
}

/// The kernel's name of the device at a place, empty if there is none.
pub(crate) fn kernel_at<'s>(state: &'s State<'_>, place: usize) -> &'s [u8]
    ensures { result.now ≡ or_empty (option_map kernel_of (device_at state.now.event place)) }
{
    state.event.kernel_at(place).unwrap_or(b"")
}

/// What a match of one device looks at, at a place.
pub(crate) fn up_subject<'s, 'a>(key: &UpKey, state: &'s State<'a>, place: usize) -> Subject<'s, 'a>
    ensures { subject_of result ≡ up_subject key.now state.now place }
{
    match key {
        UpKey::Kernels => Subject::One(kernel_at(state, place)),
        UpKey::Subsystems => Subject::One(subsystem_at(state, place)),
        UpKey::Drivers => Subject::One(driver_at(state, place)),
        UpKey::Tags => tags_at(state, place),
        UpKey::Attrs(name) => Subject::Attribute(attribute_at(state, place, name.as_slice())),
    }
}

/// Whether it is an attribute that is absent.
pub(crate) fn is_absent(subject: &Subject<'_, '_>) -> bool
    ensures { result ≡ is_absent (subject_of subject.now) }
{
    match subject {
        Subject::Attribute(Attribute::Manual(value) | Attribute::Udev(value)) => value.is_none(),
        _ => false,
    }
}

/// Appends a text that may be absent to another.
fn push_value(alloc: Global, text: &mut Vec<u8>, value: Option<&[u8]>) -> Result<(), AllocError>
    ensures { OnOk result (text.new.items ≡ text.old.items ++ value_report (option_map (λ t. t.now) value.entry)) }
{
    match value {
        Some(value) => push_shown(alloc, text, value),
        None => text.extend_from_slice(b"none"),
    }
}

/// Appends texts as rules left them to a text, with spaces between.
fn push_members(alloc: Global, text: &mut Vec<u8>, members: &[Vec<u8>]) -> Result<(), AllocError>
    ensures { OnOk result (text.new.items ≡ text.old.items ++ members_report (map (λ t. t.items) members.now)) }
{
    let Some((first, others)) = members.split_first() else {
        return text.extend_from_slice(b"none");
    };
    push_shown(alloc, text, first)?;
    for other in others {
        text.push(b' ')?;
        push_shown(alloc, text, other)?;
    }
    Ok(())
}

/// Appends texts as the event gave them to a text, with spaces between.
fn push_given(alloc: Global, text: &mut Vec<u8>, members: &[&[u8]]) -> Result<(), AllocError>
    ensures { OnOk result (text.new.items ≡ text.old.items ++ members_report (map (λ t. t.now) members.now)) }
{
    let Some((first, others)) = members.split_first() else {
        return text.extend_from_slice(b"none");
    };
    push_shown(alloc, text, first)?;
    for other in others {
        text.push(b' ')?;
        push_shown(alloc, text, other)?;
    }
    Ok(())
}

/// Appends what a match looked at to a text.
#[tactic(auto, using(crate::proofs::Looking::looked_subsystem, crate::proofs::Looking::looked_members))]
pub(crate) fn push_looked(
    alloc: Global,
    text: &mut Vec<u8>,
    subject: &Subject<'_, '_>,
) -> Result<(), AllocError>
    ensures { OnOk result (text.new.items ≡ text.old.items ++ looked (subject_of subject.now)) }
{
    match subject {
        Subject::One(one) => push_shown(alloc, text, one),
        Subject::Subsystem(_, subsystem) => push_shown(alloc, text, subsystem),
        Subject::Attribute(Attribute::Manual(value) | Attribute::Udev(value)) => {
            push_value(alloc, text, *value)
        }
        Subject::Attribute(Attribute::NotRead) => text.extend_from_slice(b"not in the block"),
        Subject::Constant(value) => push_value(alloc, text, *value),
        Subject::Members(_, members) => push_members(alloc, text, members),
        Subject::Given(_, members) => push_given(alloc, text, members),
        Subject::Unknown => text.extend_from_slice(b"unknown"),
        Subject::Unread => text.extend_from_slice(b"not read"),
    }
}
