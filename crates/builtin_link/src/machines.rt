//! The conditions of a `.link` file on the machine, by what a block tells of it.
ghost use Rattle.std.specs.Prelude.{◌≡◌, IfOk};
ghost use Rattle.std.specs.List.{list_any};
ghost use Rattle.eval_commands.specs.Words.{is_quote};
ghost use Rattle.link_files.specs.Words.{words_of};
ghost use Rattle.link_files.specs.declared.words.WordKind.TheVariants.{Property};
ghost use Rattle.builtin_link.specs.Machines.{architecture_holds, command_line_holds, condition_holds, is_unclear, is_virtualized, negated_holds};
ghost use Rattle.builtin_link.specs.Machines.{version_holds, virtualization_holds, written_holds};

use crate::checks::Need;
use crate::versions::{asked, is_as_value_asks};
use builtin_devices::file_at;
use device_core::Event;
use eval_commands::{has_word, is_quote};
use link_files::{WordKind, is_no, is_yes, words_of};
use std::alloc::{AllocError, Global};
use text_bytes::{Bytes, following, unindented};
use text_tables::is_among;

/// The names of virtualization that are those of containers.
const CONTAINERS: [&[u8]; 11] = [
    b"systemd-nspawn",
    b"lxc-libvirt",
    b"lxc",
    b"openvz",
    b"docker",
    b"podman",
    b"rkt",
    b"wsl",
    b"proot",
    b"pouch",
    b"container-other",
];

/// Whether the value of Virtualization is true of a machine, by the name of its virtualization.
fn is_virtualized(virt: &[u8], value: &[u8]) -> bool
    ensures { result ≡ is_virtualized virt.now value.now }
{
    let is_none = virt == b"none".as_slice();
    if is_yes(value) {
        !is_none
    } else if is_no(value) {
        is_none
    } else if is_none {
        false
    } else if value == b"vm".as_slice() {
        !is_among(&CONTAINERS, virt)
    } else if value == b"container".as_slice() {
        is_among(&CONTAINERS, virt)
    } else {
        value == virt
    }
}

/// The same by what the block tells.
fn virtualization_holds(event: &Event<'_>, value: &[u8]) -> Option<bool>
    ensures { result ≡ virtualization_holds event.now value.now }
{
    if value == b"private-users".as_slice() {
        return None;
    }
    Some(is_virtualized(event.constants().get(b"virt")?, value))
}

/// Whether the kernel's command line has a word, if the block tells it: of a part of it only what is there counts.
fn command_line_holds(
    alloc: Global,
    event: &Event<'_>,
    word: &[u8],
) -> Result<Option<bool>, AllocError>
    ensures { IfOk result (λ holds. holds ≡ command_line_holds event.now word.now) }
{
    if let Some(line) = file_at(event, b"cmdline") {
        return Ok(Some(has_word(alloc, word, line)?));
    }
    let Some(part) = file_at(event, b"cmdline.part") else {
        return Ok(None);
    };
    let is_there = has_word(alloc, word, part)?;
    Ok(is_there.then_some(true))
}

/// Whether a text has a quote.
fn has_quote(text: &[u8]) -> bool
    ensures { result ≡ list_any is_quote text.now }
{
    text.iter().any(|byte| is_quote(*byte))
}

/// Whether a value with these words begins with an operator alone, whose text udev takes with its quotes, and there are
/// some.
fn is_unclear(words: &[Bytes], value: &[u8]) -> bool
    requires { words.now ≡ words_of Property value.now }
    ensures { result ≡ is_unclear value.now }
{
    let Some((word, _)) = words.split_first() else {
        return false;
    };
    asked(word.as_slice()).text.is_empty() && has_quote(value)
}

/// Whether the value of KernelVersion, which may be negated, is true of the kernel, if the block tells it.
fn version_holds(
    alloc: Global,
    event: &Event<'_>,
    is_negated: bool,
    value: &[u8],
) -> Result<Option<bool>, AllocError>
    ensures { IfOk result (λ holds. holds ≡ version_holds event.now is_negated value.now) }
{
    let words = words_of(alloc, WordKind::Property, value)?;
    if is_unclear(&words, value) {
        return Ok(None);
    }
    let Some(version) = event.constants().get(b"kernel") else {
        return Ok(None);
    };
    match is_as_value_asks(alloc, version, &words, value)? {
        None => Ok(Some(false)),
        Some(holds) => Ok(Some(holds != is_negated)),
    }
}

/// Whether the value of Architecture is that of the machine, if the block tells it.
fn architecture_holds(event: &Event<'_>, value: &[u8]) -> Option<bool>
    ensures { result ≡ architecture_holds event.now value.now }
{
    let arch = event.constants().get(b"arch")?;
    Some(value == arch || value == b"native".as_slice())
}

/// Whether a condition holds of the machine, by what would tell it and its value, if the block tells it.
fn condition_holds(
    alloc: Global,
    event: &Event<'_>,
    need: Need,
    value: &[u8],
) -> Result<Option<bool>, AllocError>
    ensures { IfOk result (λ holds. holds ≡ condition_holds event.now need value.now) }
{
    match need {
        Need::Architecture => Ok(architecture_holds(event, value)),
        Need::Virtualization => Ok(virtualization_holds(event, value)),
        Need::KernelCommandLine => command_line_holds(alloc, event, value),
        Need::KernelVersion => version_holds(alloc, event, false, value),
        _ => Ok(None),
    }
}

/// The same for a value with a `!` in front, by what follows that.
fn negated_holds(
    alloc: Global,
    event: &Event<'_>,
    need: Need,
    value: &[u8],
) -> Result<Option<bool>, AllocError>
    ensures { IfOk result (λ holds. holds ≡ negated_holds event.now need value.now) }
{
    match need {
        Need::KernelVersion => version_holds(alloc, event, true, value),
        _ => Ok(condition_holds(alloc, event, need, value)?.map(|holds| !holds)),
    }
}

/// Whether a condition holds, as it is written: a `!` in front negates it.
#[tactic(auto, unfolding(crate::specs::Machines::written_holds))]
pub(crate) fn written_holds(
    alloc: Global,
    event: &Event<'_>,
    need: Need,
    value: &[u8],
) -> Result<Option<bool>, AllocError>
    ensures { IfOk result (λ holds. holds ≡ written_holds event.now need value.now) }
{
    match following(b"!", value) {
        Some(rest) => negated_holds(alloc, event, need, unindented(rest)),
        None => condition_holds(alloc, event, need, value),
    }
}
