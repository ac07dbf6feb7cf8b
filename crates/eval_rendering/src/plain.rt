//! The matches of the event and its device.
ghost use Rattle.std.specs.Prelude.{◌≡◌};
ghost use Rattle.eval_state.specs.Texts.{or_empty};
ghost use Rattle.eval_rendering.specs.Holding.{holds, one};
ghost use Rattle.eval_rendering.specs.Members.{listed};
ghost use Rattle.eval_rendering.specs.Subjects.{is_known, is_not_given, members_by, named_constant, plain_subject, subsystem_by};

use crate::holding::{Members, agrees, members_hold, text_holds, unread_holds};
use crate::matched_attributes::{borrowed_holds, event_attribute};
use crate::udev;
use eval_state::{Chain, State};
use rule_types::{Comparison, PlainKey, PlainMatch};
use text_bytes::Profile;

/// The assigned name, empty if there is none.
fn name<'s>(state: &'s State<'_>) -> &'s [u8]
    ensures { result.now ≡ or_empty state.now.name }
{
    match &state.name {
        Some(name) => name.as_slice(),
        None => b"",
    }
}

/// Whether a constant is one that CONST knows, as udev(7) names them.
pub fn is_known_constant(name: &[u8]) -> bool
    ensures { result ≡ is_known name.now }
{
    name == b"arch".as_slice() || name == b"virt".as_slice() || name == b"cvm".as_slice()
}

/// Whether CONST asks for a constant that udev of systemd 257 knows of its machine, and that the event's block does not
/// give. Never by the manual, which lets a block leave it out.
#[tactic(auto, unfolding(crate::specs::Subjects::is_not_given))]
pub fn is_not_given(name: &[u8], chain: &Chain<'_>) -> bool
    ensures { result ≡ is_not_given name.now chain.now }
{
    match chain.event().profile() {
        Profile::Manual => false,
        Profile::Udev => {
            is_known_constant(name) && chain.event().constants().get(name).is_none()
        }
    }
}

/// Whether a comparison holds for the constant of a name, which may be absent.
#[inline(never)]
#[tactic(auto, unfolding(crate::specs::Holding::holds))]
fn named_constant_holds(wanted: &Comparison, name: &[u8], state: &State<'_>) -> bool
    ensures { result ≡ holds (named_constant name.now state.now) wanted.now }
{
    if !is_known_constant(name) {
        return false;
    }
    match state.event.event().constants().get(name) {
        Some(text) => agrees(wanted.operator, wanted.choice.fits(text)),
        None => agrees(wanted.operator, false),
    }
}

/// Whether a comparison holds for the subsystem of the event device.
fn subsystem_match_holds(wanted: &Comparison, state: &State<'_>) -> bool
    ensures { result ≡ holds (subsystem_by state.now.event.profile (or_empty state.now.event.device.subsystem)) wanted.now }
{
    let subsystem = state.event.device().subsystem().unwrap_or(b"");
    match state.event.event().profile() {
        Profile::Manual => text_holds(wanted, subsystem),
        Profile::Udev => udev::subsystem_holds(wanted, subsystem),
    }
}

/// Whether a comparison holds for links or tags.
#[inline(never)]
pub(crate) fn texts_hold(wanted: &Comparison, state: &State<'_>, texts: &Members<'_>) -> bool
    ensures { result ≡ holds (members_by state.now.event.profile (listed texts.now)) wanted.now }
{
    match state.event.event().profile() {
        Profile::Manual => members_hold(wanted, texts),
        Profile::Udev => udev::members_hold(wanted, texts),
    }
}

/// Whether a match of the event holds, as udev(7) has it: for each key what it looks at is compared
/// with the choice. Of SYMLINK and TAG, `!=` holds if no member fits; an absent attribute or constant
/// fails `==` and meets `!=`; whitespace at the end of an attribute counts only if the choice ends in
/// whitespace; SYSCTL is not read, and counts as absent.
///
/// Of an event of udev's as udev of systemd 257 has it: substitutions in the name of an attribute are made; an attribute
/// that is absent or not read fails `==` and `!=`; of an attribute that is there at most 511 bytes are compared,
/// without the spaces, tabs, line feeds and carriage returns at its end, unless the first of the texts between bars
/// that is not empty ends in whitespace, or all are empty; `subsystem`, `bus` and `class`, each alone in a value of
/// SUBSYSTEM, fit each of the three; `?*` fits SYMLINK and TAG even if there are none.
#[inline(always)]
pub fn plain_holds(part: &PlainMatch, state: &State<'_>) -> bool
    ensures { result ≡ holds (plain_subject part.now.key state.now) part.now.wanted }
{
    let device = state.event.device();
    let wanted = &part.wanted;
    match &part.key {
        PlainKey::Action => text_holds(wanted, state.event.event().action()),
        PlainKey::Devpath => text_holds(wanted, device.path()),
        PlainKey::Kernel => text_holds(wanted, state.event.kernel()),
        PlainKey::Subsystem => subsystem_match_holds(wanted, state),
        PlainKey::Driver => text_holds(wanted, device.driver().unwrap_or(b"")),
        PlainKey::Name => text_holds(wanted, name(state)),
        PlainKey::Symlink => texts_hold(wanted, state, &Members::Kept(state.links.as_slice())),
        PlainKey::Tag => texts_hold(wanted, state, &Members::Kept(state.tags.as_slice())),
        PlainKey::Attr(name) => borrowed_holds(wanted, &event_attribute(state, name.as_slice())),
        PlainKey::Sysctl(_) => unread_holds(wanted),
        PlainKey::Env(name) => text_holds(wanted, state.property(name.as_slice())),
        PlainKey::Const(name) => named_constant_holds(wanted, name.as_slice(), state),
    }
}

/// Whether a match of the result of the last program holds.
pub fn result_holds(part: &Comparison, state: &State<'_>) -> bool
    ensures { result ≡ holds (one state.now.result) part.now }
{
    text_holds(part, state.result.as_slice())
}
