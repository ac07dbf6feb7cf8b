//! What ID_TYPE says, by numbers that the kernel reports.
ghost use Rattle.std.specs.Prelude.{◌≡◌, map, option_copied, option_map};
ghost use Rattle.builtin_usb.specs.Kinds.{class_of, interface_kind, is_storage, kind_beside, kind_in, reported_kind, storage_kind, subclass_number};
ghost use Rattle.builtin_usb.specs.Kinds.{subclass_of, takes_scsi};

use builtin_devices::{Base, attribute, is_number, number_in};
use device_core::Device;

/// The class of interfaces that are storage.
const STORAGE: u64 = 8;

/// The subclass of storage that takes commands of SCSI as ATAPI has them.
const ATAPI: u64 = 2;

/// The subclass of storage that takes commands of SCSI.
const SCSI: u64 = 6;

/// The kind of numbers that have none of their own.
const GENERIC: &[u8] = b"generic";

/// The kinds of devices, by the class of an interface.
const CLASS_KINDS: [(u64, &[u8]); 6] = [
    (1, b"audio"),
    (3, b"hid"),
    (6, b"media"),
    (7, b"printer"),
    (9, b"hub"),
    (14, b"video"),
];

/// The kinds of storage, by the subclass of an interface.
const STORAGE_KINDS: [(u64, &[u8]); 5] = [
    (1, b"rbc"),
    (2, b"atapi"),
    (3, b"tape"),
    (4, b"floppy"),
    (6, b"scsi"),
];

/// The kinds of SCSI devices, by their type.
const UNIT_KINDS: [(u64, &[u8]); 7] = [
    (0, b"disk"),
    (1, b"tape"),
    (4, b"optical"),
    (5, b"cd"),
    (7, b"optical"),
    (14, b"disk"),
    (15, b"optical"),
];

/// The kind that is beside a number.
fn kind_beside(rows: &[(u64, &'static [u8])], number: u64) -> &'static [u8]
    ensures { result.now ≡ kind_beside (map (λ row. (row.0, row.1.now)) rows.now) number }
{
    for row in rows {
        if row.0 == number {
            return row.1;
        }
    }
    GENERIC
}

/// The same for what may not be a number.
fn kind_in(rows: &[(u64, &'static [u8])], number: Option<u64>) -> &'static [u8]
    ensures { result.now ≡ kind_in (map (λ row. (row.0, row.1.now)) rows.now) number }
{
    match number {
        Some(number) => kind_beside(rows, number),
        None => GENERIC,
    }
}

/// The class of an interface, if it is a number.
pub(crate) fn class_of(interface: &Device<'_>) -> Option<u64>
    ensures { result ≡ class_of interface.now }
{
    let text = attribute(interface, b"bInterfaceClass")?;
    number_in(Base::Hexadecimal, u64::from(u32::MAX), text)
}

/// The number of a subclass.
fn subclass_number(text: &[u8]) -> Option<u64>
    ensures { result ≡ subclass_number text.now }
{
    number_in(Base::AsWritten, u64::from(u32::MAX / 2), text)
}

/// The subclass of an interface, if it is a number.
fn subclass_of(interface: &Device<'_>) -> Option<u64>
    ensures { result ≡ subclass_of interface.now }
{
    subclass_number(attribute(interface, b"bInterfaceSubClass")?)
}

/// Whether an interface is storage.
pub(crate) fn is_storage(interface: &Device<'_>) -> bool
    ensures { result ≡ is_storage interface.now }
{
    is_number(STORAGE, class_of(interface))
}

/// Whether an interface is storage that commands of SCSI are sent to.
pub(crate) fn takes_scsi(interface: &Device<'_>) -> bool
    ensures { result ≡ takes_scsi interface.now }
{
    let subclass = subclass_of(interface);
    is_storage(interface) && (is_number(ATAPI, subclass) || is_number(SCSI, subclass))
}

/// The kind of storage, empty if the subclass is not reported.
fn storage_kind(subclass: Option<&[u8]>) -> &'static [u8]
    ensures { result.now ≡ storage_kind (option_map (λ t. t.now) subclass.entry) }
{
    match subclass {
        Some(text) => kind_in(&STORAGE_KINDS, subclass_number(text)),
        None => b"",
    }
}

/// The kind of an interface.
fn interface_kind(interface: &Device<'_>) -> &'static [u8]
    ensures { result.now ≡ interface_kind interface.now }
{
    if is_storage(interface) {
        storage_kind(attribute(interface, b"bInterfaceSubClass"))
    } else {
        kind_in(&CLASS_KINDS, class_of(interface))
    }
}

/// What ID_TYPE says, empty if nothing determines it: the type of the SCSI device counts before the interface.
pub(crate) fn reported_kind(
    interface: Option<&Device<'_>>,
    unit_type: Option<&[u8]>,
) -> &'static [u8]
    ensures { result.now ≡ reported_kind (option_copied interface.entry) (option_map (λ t. t.now) unit_type.entry) }
{
    if let Some(text) = unit_type {
        return kind_in(
            &UNIT_KINDS,
            number_in(Base::AsWritten, u64::from(u32::MAX), text),
        );
    }
    match interface {
        Some(interface) => interface_kind(interface),
        None => b"",
    }
}
