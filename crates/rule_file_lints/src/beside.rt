//! Properties that may be given before the rules of a file, and imports of properties of any names.
ghost use Rattle.std.specs.Prelude.{◌≡◌, option_map};
ghost use Rattle.text_tables.specs.Texts.{is_among};
ghost use Rattle.rule_lints.specs.ValueTexts.{begins_with_one};
ghost use Rattle.rule_file_lints.specs.Beside.{early_properties, imports_any, is_early, is_open, shared_families};

use rule_core::WrittenPart;
use rule_lints::begins_with_one;
use text_tables::is_among;

/// Properties that the kernel sends with an event, or that udev sets before any rule.
const EARLY_PROPERTIES: [&[u8]; 33] = [
    b"ACTION",
    b"DEVNAME",
    b"DEVPATH",
    b"DEVTYPE",
    b"DISKSEQ",
    b"DISK_EJECT_REQUEST",
    b"DISK_MEDIA_CHANGE",
    b"DRIVER",
    b"EV",
    b"HID_ID",
    b"HID_NAME",
    b"HID_PHYS",
    b"HID_UNIQ",
    b"IFINDEX",
    b"INTERFACE",
    b"MAJOR",
    b"MINOR",
    b"MODALIAS",
    b"NAME",
    b"PARTN",
    b"PARTNAME",
    b"PCI_CLASS",
    b"PCI_ID",
    b"PCI_SLOT_NAME",
    b"PCI_SUBSYS_ID",
    b"PHYS",
    b"PRODUCT",
    b"SEQNUM",
    b"SUBSYSTEM",
    b"TAGS",
    b"CURRENT_TAGS",
    b"TYPE",
    b"UNIQ",
];

/// What the names of properties begin with that udev's own files set, or others with rules of their own.
const SHARED_FAMILIES: [&[u8]; 8] = [
    b".",
    b"DM_",
    b"ID_",
    b"LVM_",
    b"MD_",
    b"NM_",
    b"SYSTEMD_",
    b"UDISKS_",
];

/// What IMPORT takes properties of any names from.
const OPEN_SOURCES: [&[u8]; 2] = [b"program", b"file"];

/// Whether a property may be given before the rules of a file.
pub(crate) fn is_early(name: &[u8]) -> bool
    ensures { result ≡ is_early name.now }
{
    is_event_property(name) || is_shared(name)
}

/// Whether a property is one of the kernel's events.
fn is_event_property(name: &[u8]) -> bool
    ensures { result ≡ is_among early_properties name.now }
{
    is_among(&EARLY_PROPERTIES, name)
}

/// Whether the name of a property begins with one that other files use.
fn is_shared(name: &[u8]) -> bool
    ensures { result ≡ begins_with_one shared_families name.now }
{
    begins_with_one(&SHARED_FAMILIES, name)
}

/// Whether a token imports properties of any names: from a program or a file.
pub(crate) fn imports_any(written: &WrittenPart<'_>) -> bool
    ensures { result ≡ imports_any written.now }
{
    let token = &written.token;
    token.key() == b"IMPORT".as_slice() && is_open(token.attribute())
}

/// Whether what an IMPORT has in braces is a program or a file.
fn is_open(source: Option<&[u8]>) -> bool
    ensures { result ≡ is_open (option_map (λ name. name.now) source.entry) }
{
    match source {
        None => false,
        Some(name) => is_among(&OPEN_SOURCES, name),
    }
}
