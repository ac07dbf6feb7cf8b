//! Which attribute a match of ATTR or ATTRS looks at.
ghost use Rattle.std.specs.Prelude.{◌≡◌, Some, option_copied, option_map};
ghost use Rattle.std.specs.Option.{option_and_then};
ghost use Rattle.rule_types.specs.declared.roles.PlainKey.TheVariants as plain;
ghost use Rattle.rule_types.specs.declared.roles.UpKey.TheVariants as up;
ghost use Rattle.eval_rendering.specs.Attributes.{attribute_by, attribute_of, is_not_read, is_unknown};
ghost use Rattle.eval_rendering.specs.Attributes.{is_untold_at, own_attribute, sought, udev_found};
ghost use Rattle.eval_rendering.specs.Attributes.{udev_subject};
ghost use Rattle.eval_rendering.specs.Holding.{holds};
ghost use Rattle.eval_rendering.specs.Borrowed.{borrowed_subject};
ghost use Rattle.eval_rendering.specs.Subjects.{plain_subject, up_subject};
ghost use Rattle.eval_state.specs.Chains.{device_at};
ghost use Rattle.eval_rendering.specs.Bounds.{short};
ghost use Rattle.eval_rendering.specs.Names.{name_text};
ghost use Rattle.eval_rendering.specs.Paths.{read_value};

use crate::attributes::{as_read, cut_off};
use crate::holding::attribute_holds;
use crate::names::rendered_name;
use crate::paths::{is_unread, read_value};
use crate::udev;
use device_core::Device;
use eval_state::{Chain, Named, State};
use rule_tokens::has_sign;
use rule_types::Comparison;
use text_bytes::{Profile, begins_with};

/// What a match of ATTR or ATTRS looks at.
#[derive(Drop)]
pub enum Attribute<'a> {
    /// An attribute by the manual, which may be absent.
    Manual(Option<&'a [u8]>),
    /// An attribute as udev has it, which may be absent.
    Udev(Option<&'a [u8]>),
    /// An attribute that udev would read, and a dry run does not.
    NotRead,
}

/// An attribute of the device at a place of the chain, if there is such a device and it has the attribute.
fn attribute_of<'a>(chain: &Chain<'a>, name: &[u8], place: usize) -> Option<&'a [u8]>
    ensures { option_map (λ value. value.now) result ≡ attribute_of chain.now name.now place }
{
    chain.device_at(place)?.attrs().get(name)
}

/// Whether udev would read an attribute of this name that a dry run does not read: one of a device that is not in the chain, and that
/// the event device does not have under this name.
fn is_unknown(name: &[u8], chain: &Chain<'_>) -> bool
    ensures { result ≡ is_unknown name.now chain.now }
{
    if !begins_with(b'[', name) {
        return false;
    }
    match Named::read(name) {
        Some(named) => {
            !named.attribute.is_empty()
                && chain.named_place(&named).is_none()
                && chain.device().attrs().get(name).is_none()
        }
        None => false,
    }
}

/// Whether there is a device, and the block does not tell what a name that names no device stands for there.
fn is_untold_at<'a>(name: &[u8], chain: &Chain<'a>, device: Option<&'a Device<'a>>) -> bool
    ensures { result ≡ is_untold_at name.now chain.now (option_copied device.entry) }
{
    if begins_with(b'[', name) {
        return false;
    }
    match device {
        Some(device) => is_unread(chain, device, name),
        None => false,
    }
}

/// Whether a match of ATTR or ATTRS asks for an attribute that udev of systemd 257 would read, and that is not read
/// here: one of a device that is not in the chain, named `[SUBSYSTEM/KERNEL]ATTRIBUTE`, unless the event device has it
/// under this whole name; or another of which the block tells nothing: a path that begins with `../` or `./` and leads to what the
/// block does not have and does not deny, a file that has no value of one line, and what lies in a folder of which the block shows
/// nothing. Never by the manual, which knows no such names.
#[tactic(auto, unfolding(crate::specs::Attributes::is_not_read))]
pub fn is_not_read(name: &[u8], chain: &Chain<'_>) -> bool
    ensures { result ≡ is_not_read name.now chain.now }
{
    match chain.event().profile() {
        Profile::Manual => false,
        Profile::Udev => {
            is_unknown(name, chain) || is_untold_at(name, chain, Some(chain.device()))
        }
    }
}

/// The value of a name once that is rendered, with the device at a place selected, or with none selected.
fn value_of_rendered<'a>(
    state: &State<'a>,
    selected: Option<usize>,
    name: &[u8],
    device: &'a Device<'a>,
) -> Option<&'a [u8]>
    ensures { option_map (λ value. value.now) result
        ≡ option_and_then (read_value state.now.event device.now) (short (name_text name.now (record state.now { selected = selected }))) }
{
    let rendered = rendered_name(state, selected, name);
    match rendered.text() {
        Some(text) => read_value(&state.event, device, text),
        None => None,
    }
}

/// What stands under a name as udev looks it up.
fn udev_found<'a>(
    state: &State<'a>,
    selected: Option<usize>,
    name: &[u8],
    device: &'a Device<'a>,
) -> Option<&'a [u8]>
    ensures { option_map (λ value. value.now) result ≡ udev_found name.now (record state.now { selected = selected }) device.now }
{
    if !begins_with(b'[', name) && has_sign(name) {
        value_of_rendered(state, selected, name, device)
    } else {
        read_value(&state.event, device, name)
    }
}

/// An attribute of the device at a place of the chain, if there is one, by the name that a match has.
#[tactic(auto, unfolding(crate::specs::Attributes::udev_value))]
fn own_attribute<'a>(
    state: &State<'a>,
    selected: Option<usize>,
    place: usize,
    name: &[u8],
) -> Option<&'a [u8]>
    ensures { option_map (λ value. value.now) result ≡ own_attribute name.now (record state.now { selected = selected }) place }
{
    let device = state.event.device_at(place)?;
    match state.event.event().profile() {
        Profile::Manual => device.attrs().get(name),
        Profile::Udev => udev_found(state, selected, name, device).map(as_read),
    }
}

/// The attribute of a name as udev has it, by the one of the device at a place.
fn sought<'a>(
    state: &State<'a>,
    selected: Option<usize>,
    place: usize,
    name: &[u8],
) -> Option<&'a [u8]>
    ensures { option_map (λ value. value.now) result
        ≡ sought name.now state.now.event (own_attribute name.now (record state.now { selected = selected }) place) }
{
    if !begins_with(b'[', name) {
        return own_attribute(state, selected, place, name);
    }
    let named = Named::read(name)?;
    if named.attribute.is_empty() {
        return None;
    }
    let chain = &state.event;
    match chain.named_place(&named) {
        Some(place) => Some(cut_off(attribute_of(chain, named.attribute, place).unwrap_or(b""))),
        None => chain.device().attrs().get(name).map(cut_off),
    }
}

/// What udev compares of an attribute.
#[tactic(auto, unfolding(crate::specs::Attributes::udev_subject))]
fn udev_attribute<'a>(
    state: &State<'a>,
    selected: Option<usize>,
    place: usize,
    name: &[u8],
) -> Attribute<'a>
    ensures { borrowed_subject result
        ≡ udev_subject name.now state.now.event (device_at state.now.event place) (own_attribute name.now (record state.now { selected = selected }) place) }
{
    if is_unknown(name, &state.event) {
        return Attribute::NotRead;
    }
    let value = sought(state, selected, place, name);
    if value.is_none() && is_untold_at(name, &state.event, state.event.device_at(place)) {
        Attribute::NotRead
    } else {
        Attribute::Udev(value)
    }
}

/// What a match of an attribute looks at, at a place of the chain, with the device at another place selected, or with
/// none selected.
fn attribute_by<'a>(
    state: &State<'a>,
    selected: Option<usize>,
    place: usize,
    name: &[u8],
) -> Attribute<'a>
    ensures { borrowed_subject result
        ≡ attribute_by state.now.event.profile name.now state.now.event (device_at state.now.event place)
        (own_attribute name.now (record state.now { selected = selected }) place) }
{
    match state.event.event().profile() {
        Profile::Manual => Attribute::Manual(own_attribute(state, selected, place, name)),
        Profile::Udev => udev_attribute(state, selected, place, name),
    }
}

/// What a match of ATTR looks at: by the manual the attribute of the event device that has this name. As udev of
/// systemd 257 has it, a name with a `$` or a `%` is rendered first, and no attribute has a name that is then longer than
/// 511 bytes; but `[SUBSYSTEM/KERNEL]ATTRIBUTE` is an attribute of a device of the chain, its first 511 bytes, and
/// empty if that device does not have it; of a device that is not in the chain it is what the event device has under
/// this whole name. A name that begins with `../` or `./` is a path from the device's folder, and `driver` and `subsystem`
/// name links, unless the block has the attribute under this name. The newlines and carriage returns at its end are no
/// part of it.
pub fn event_attribute<'a>(state: &State<'a>, name: &[u8]) -> Attribute<'a>
    ensures { borrowed_subject result ≡ plain_subject (plain.Attr name.now) state.now }
{
    attribute_by(state, state.selected, 0, name)
}

/// What a match of ATTRS looks at, at a place of the chain: what ATTR would look at if the device there were the event
/// device, and were selected.
pub fn attribute_at<'a>(state: &State<'a>, place: usize, name: &[u8]) -> Attribute<'a>
    ensures { borrowed_subject result ≡ up_subject (up.Attrs name.now) state.now place }
{
    attribute_by(state, Some(place), place, name)
}

/// Whether a comparison holds for what a match of ATTR or ATTRS looks at.
#[tactic(auto, unfolding(crate::specs::Holding::holds))]
#[inline(never)]
pub(crate) fn borrowed_holds(wanted: &Comparison, attribute: &Attribute<'_>) -> bool
    ensures { result ≡ holds (borrowed_subject attribute.now) wanted.now }
{
    match attribute {
        Attribute::Manual(value) => attribute_holds(wanted, *value),
        Attribute::Udev(value) => udev::attribute_holds(wanted, *value),
        Attribute::NotRead => false,
    }
}
