//! The attributes that names are made from, and which of them they may use.
ghost use Rattle.std.specs.Prelude.{◌≡◌, option_map};
ghost use Rattle.builtin_net.specs.Allowed.{attribute_name, interface, is_allowed, lacks, number, permission, permits, read};

use crate::words::MAX_NUMBER;
use builtin_devices::{Base, number_in};
use device_core::{Device, Event};
use link_files::is_yes;
use text_tables::{CowPairs, Pairs};

/// An attribute that names are made from.
#[derive(Clone, Copy)]
pub(crate) enum Attribute {
    /// `iflink`, the index of the interface that this one is stacked on.
    Iflink,
    /// `type`, the number of the hardware.
    Hardware,
    /// `addr_assign_type`, where the address comes from.
    AddrAssignType,
    /// `address`, the address.
    Address,
    /// `phys_port_name`, the name of the port.
    PhysPortName,
    /// `dev_port`, the number of the port.
    DevPort,
    /// `dev_id`, the number of the port of InfiniBand.
    DevId,
    /// `ari_enabled`, whether functions of all slots are counted as one.
    AriEnabled,
    /// `acpi_index`, the number on board by ACPI.
    AcpiIndex,
    /// `index`, the number on board by the table of the firmware.
    Index,
    /// `label`, the label on board.
    Label,
    /// `firmware_node/sun`, the number of the slot by ACPI.
    Sun,
    /// `function_id`, the number of a function of System z.
    FunctionId,
    /// `modalias`, which says whether a device is a bridge.
    Modalias,
}

/// The property that says whether names may use any attribute.
const PERMISSION_OF_ALL: &[u8] = b"ID_NET_NAME_ALLOW";

impl Attribute {
    /// Where it is below the folder of its device, and the property that says whether names may use it.
    fn texts(self) -> (&'static [u8], &'static [u8])
        ensures name { result.0.now ≡ attribute_name self }
        ensures permission { result.1.now ≡ permission self }
    {
        match self {
            Attribute::Iflink => (b"iflink", b"ID_NET_NAME_ALLOW_IFLINK"),
            Attribute::Hardware => (b"type", b"ID_NET_NAME_ALLOW_TYPE"),
            Attribute::AddrAssignType => (
                b"addr_assign_type",
                b"ID_NET_NAME_ALLOW_ADDR_ASSIGN_TYPE",
            ),
            Attribute::Address => (b"address", b"ID_NET_NAME_ALLOW_ADDRESS"),
            Attribute::PhysPortName => (b"phys_port_name", b"ID_NET_NAME_ALLOW_PHYS_PORT_NAME"),
            Attribute::DevPort => (b"dev_port", b"ID_NET_NAME_ALLOW_DEV_PORT"),
            Attribute::DevId => (b"dev_id", b"ID_NET_NAME_ALLOW_DEV_ID"),
            Attribute::AriEnabled => (b"ari_enabled", b"ID_NET_NAME_ALLOW_ARI_ENABLED"),
            Attribute::AcpiIndex => (b"acpi_index", b"ID_NET_NAME_ALLOW_ACPI_INDEX"),
            Attribute::Index => (b"index", b"ID_NET_NAME_ALLOW_INDEX"),
            Attribute::Label => (b"label", b"ID_NET_NAME_ALLOW_LABEL"),
            Attribute::Sun => (b"firmware_node/sun", b"ID_NET_NAME_ALLOW_FIRMWARE_NODE/SUN"),
            Attribute::FunctionId => (b"function_id", b"ID_NET_NAME_ALLOW_FUNCTION_ID"),
            Attribute::Modalias => (b"modalias", b"ID_NET_NAME_ALLOW_MODALIAS"),
        }
    }
}

/// Whether names may use an attribute, by a word for it alone, or else by one for all attributes.
fn permits(own: Option<&[u8]>, all: Option<&[u8]>) -> bool
    ensures { result ≡ permits (option_map (λ t. t.now) own.entry) (option_map (λ t. t.now) all.entry) }
{
    match own.or(all) {
        Some(word) => is_yes(word),
        None => true,
    }
}

/// Whether, by properties that udev has kept, names may use an attribute.
#[tactic(auto, unfolding(crate::specs::Allowed::is_allowed))]
fn is_allowed(env: &Pairs<'_>, attribute: Attribute) -> bool
    ensures { result ≡ is_allowed env.now attribute }
{
    permits(env.get(attribute.texts().1), env.get(PERMISSION_OF_ALL))
}

/// Whether, by current properties, names may use an attribute.
#[tactic(auto, unfolding(crate::specs::Allowed::is_allowed))]
fn is_allowed_now(env: &CowPairs<'_>, attribute: Attribute) -> bool
    ensures { result ≡ is_allowed env.now attribute }
{
    permits(env.get(attribute.texts().1), env.get(PERMISSION_OF_ALL))
}

/// An attribute of a device, unless names may not use it.
#[tactic(auto, unfolding(crate::specs::Allowed::read))]
pub(crate) fn read<'a>(device: &Device<'a>, attribute: Attribute) -> Option<&'a [u8]>
    ensures { option_map (λ t. t.now) result ≡ read device.now attribute }
{
    if is_allowed(device.env(), attribute) {
        device.attrs().get(attribute.texts().0)
    } else {
        None
    }
}

/// The number that an attribute gives.
#[tactic(auto, unfolding(crate::specs::Allowed::number))]
pub(crate) fn number(device: &Device<'_>, attribute: Attribute) -> Option<u64>
    ensures { result ≡ number device.now attribute }
{
    match read(device, attribute) {
        Some(text) => number_in(Base::AsWritten, MAX_NUMBER, text),
        None => None,
    }
}

/// Whether a device lacks an attribute that names may use.
#[tactic(auto, unfolding(crate::specs::Allowed::lacks))]
pub(crate) fn lacks(device: &Device<'_>, attribute: Attribute) -> bool
    ensures { result ≡ lacks device.now attribute }
{
    is_allowed(device.env(), attribute) && device.attrs().get(attribute.texts().0).is_none()
}

/// An attribute of the event device, unless its current properties forbid it.
#[tactic(auto, unfolding(crate::specs::Allowed::read))]
pub(crate) fn read_own<'a>(
    event: &Event<'a>,
    env: &CowPairs<'_>,
    attribute: Attribute,
) -> Option<&'a [u8]>
    ensures { option_map (λ t. t.now) result ≡ read (interface event.now env.now) attribute }
{
    if is_allowed_now(env, attribute) {
        event.device().attrs().get(attribute.texts().0)
    } else {
        None
    }
}

/// The number that an attribute of the event device gives.
#[tactic(auto, unfolding(crate::specs::Allowed::number))]
pub(crate) fn own_number(event: &Event<'_>, env: &CowPairs<'_>, attribute: Attribute) -> Option<u64>
    ensures { result ≡ number (interface event.now env.now) attribute }
{
    match read_own(event, env, attribute) {
        Some(text) => number_in(Base::AsWritten, MAX_NUMBER, text),
        None => None,
    }
}

/// Whether the event device lacks an attribute that names may use.
#[tactic(auto, unfolding(crate::specs::Allowed::lacks))]
pub(crate) fn lacks_own(event: &Event<'_>, env: &CowPairs<'_>, attribute: Attribute) -> bool
    ensures { result ≡ lacks (interface event.now env.now) attribute }
{
    is_allowed_now(env, attribute) && event.device().attrs().get(attribute.texts().0).is_none()
}
