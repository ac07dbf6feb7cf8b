//! Whether a `.link` file is for some interface.
ghost use Rattle.std.specs.Prelude.{◌≡◌, ◌++◌, IfOk, OnOk, map};
ghost use Rattle.link_files.specs.Matching.{asks_something, gives_any, lists_any, whole_faults};

use crate::drop_ins::DropIns;
use crate::fault::LinkFault;
use crate::files::with_drop_ins;
use crate::lists::{MATCH, last_of, list_of};
use crate::placed_fault::PlacedFault;
use crate::settings::Setting;
use crate::words::WordKind;
use std::alloc::{AllocError, Global};
use text_bytes::{Bytes, SourceFile};

/// The keys of `[Match]` whose values are lists, with what is asked of the interface itself.
pub(crate) const LIST_KEYS: [(WordKind, &[u8]); 8] = [
    (WordKind::Name, b"OriginalName"),
    (WordKind::Glob, b"Path"),
    (WordKind::Glob, b"Driver"),
    (WordKind::Glob, b"Type"),
    (WordKind::Glob, b"Kind"),
    (WordKind::Plain, b"MACAddress"),
    (WordKind::Plain, b"PermanentMACAddress"),
    (WordKind::Property, b"Property"),
];

/// The other keys of `[Match]`, with what is asked of the system that runs and of the machine.
pub(crate) const OTHER_KEYS: [&[u8]; 7] = [
    b"Host",
    b"KernelCommandLine",
    b"KernelVersion",
    b"Credential",
    b"Virtualization",
    b"Architecture",
    b"Firmware",
];

/// Whether words are given for one of these keys of `[Match]`.
fn lists_any(
    alloc: Global,
    keys: &[(WordKind, &[u8])],
    settings: &[Setting],
) -> Result<bool, AllocError>
    ensures { IfOk result (λ lists. lists ≡ lists_any (map (λ row. (row.0, row.1.now)) keys.now) settings.now) }
{
    for row in keys {
        if !list_of(alloc, row.0, row.1, settings)?.is_empty() {
            return Ok(true);
        }
    }
    Ok(false)
}

/// Whether a value is given last for one of these keys of `[Match]`.
fn gives_any(keys: &[&[u8]], settings: &[Setting]) -> bool
    ensures { result ≡ gives_any (map (λ key. key.now) keys.now) settings.now }
{
    for key in keys {
        if !last_of(MATCH, key, settings).is_empty() {
            return true;
        }
    }
    false
}

/// Whether a key of `[Match]` is given.
#[tactic(auto, unfolding(crate::specs::Matching::asks_something))]
fn asks_something(alloc: Global, settings: &[Setting]) -> Result<bool, AllocError>
    ensures { IfOk result (λ asks. asks ≡ asks_something settings.now) }
{
    Ok(lists_any(alloc, &LIST_KEYS, settings)? || gives_any(&OTHER_KEYS, settings))
}

/// Adds the fault of a file as a whole: with those of these files that are drop-ins of it, it is for no interface.
pub(crate) fn add_whole_faults(
    alloc: Global,
    found: &mut Vec<PlacedFault>,
    files: &DropIns<'_>,
    file: &SourceFile,
) -> Result<(), AllocError>
    ensures { OnOk result (found.new.items ≡ found.old.items ++ whole_faults files.now file.now) }
{
    if !file.name.as_slice().ends_with(b".link") || file.bytes.as_slice().is_empty() {
        return Ok(());
    }
    let link = with_drop_ins(alloc, file, files.of_file(file))?;
    if link.is_sound() && !asks_something(alloc, link.settings())? {
        found.push(PlacedFault {
            line: 1,
            column: 1,
            end: 1,
            fault: LinkFault::NoInterface,
            word: Bytes::new(Vec::new(alloc)),
        })?;
    }
    Ok(())
}
