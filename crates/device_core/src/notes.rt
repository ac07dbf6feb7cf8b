//! The notes about a block.
ghost use Rattle.std.specs.Prelude.{◌≡◌, ◌++◌, IfOk, OnOk, flat_map, option_map};
ghost use Rattle.device_core.specs.Notes.{about, begins_with_sys, block_notes, due_note, has_gone_attributes, is_behind_commands};
ghost use Rattle.device_core.specs.Notes.{is_due, is_filled, is_stored_by_udev, is_unknown_action, udev_notes};

use crate::events::Event;
use crate::kinds::BlockNoteKind;
use crate::trying::lacks_event;
use std::alloc::{AllocError, Global};
use text_bytes::{Bytes, Profile, ends_in, word_of};
use text_tables::is_among;

/// The actions that udev has, as udevadm(8) lists them for `trigger --action`.
const ACTIONS: [&[u8]; 8] = [
    b"add", b"remove", b"change", b"move", b"online", b"offline", b"bind", b"unbind",
];

/// The property that udev stores of each device once it has handled the first event of it.
const STORED: &[u8] = b"USEC_INITIALIZED";

/// The kinds of notes, in their order.
const KINDS: [BlockNoteKind; 7] = [
    BlockNoteKind::UnknownAction,
    BlockNoteKind::PathBeginsWithSys,
    BlockNoteKind::StoredByUdev,
    BlockNoteKind::BehindCommands,
    BlockNoteKind::NoSubsystem,
    BlockNoteKind::GoneAttributes,
    BlockNoteKind::ReturnAtEnds,
];

/// A note about a block.
#[derive(Drop)]
pub struct BlockNote {
    /// What it says.
    pub kind: BlockNoteKind,
    /// The first 32 bytes of the text that it is about, before escaping.
    pub word: Bytes,
}

/// Whether udev has no such action.
fn is_unknown_action(action: &[u8]) -> bool
    ensures { result ≡ is_unknown_action action.now }
{
    !is_among(&ACTIONS, action)
}

/// Whether a path begins with the folder that it is below.
fn begins_with_sys(path: &[u8]) -> bool
    ensures { result ≡ begins_with_sys path.now }
{
    path.starts_with(b"/sys/")
}

/// Whether there is a value that is not empty.
fn is_filled(value: Option<&[u8]>) -> bool
    ensures { result ≡ is_filled (option_map (λ v. v.now) value.entry) }
{
    match value {
        Some(value) => !value.is_empty(),
        None => false,
    }
}

/// Whether the device is new, and has the property that udev stores only later.
fn is_stored_by_udev(event: &Event<'_>) -> bool
    ensures { result ≡ is_stored_by_udev event.now }
{
    event.action() == b"add".as_slice() && is_filled(event.device().env().get(STORED))
}

/// Whether a property of the farthest parent stands behind commands.
fn is_behind_commands(event: &Event<'_>) -> bool
    ensures { result ≡ is_behind_commands event.now }
{
    !event.parents().is_empty() && event.misplaced().is_some()
}

/// Whether the device is removed, and the block has attributes of it.
fn has_gone_attributes(event: &Event<'_>) -> bool
    ensures { result ≡ has_gone_attributes event.now }
{
    event.action() == b"remove".as_slice() && event.device().attrs().len() != 0
}

/// Whether a note of a kind is due.
fn is_due(event: &Event<'_>, kind: BlockNoteKind) -> bool
    ensures { result ≡ is_due event.now kind }
{
    match kind {
        BlockNoteKind::UnknownAction => is_unknown_action(event.action()),
        BlockNoteKind::PathBeginsWithSys => begins_with_sys(event.device().path()),
        BlockNoteKind::StoredByUdev => is_stored_by_udev(event),
        BlockNoteKind::BehindCommands => is_behind_commands(event),
        BlockNoteKind::NoSubsystem => lacks_event(event),
        BlockNoteKind::GoneAttributes => has_gone_attributes(event),
        BlockNoteKind::ReturnAtEnds => ends_in(b'\r', event.device().path()),
    }
}

/// The text that a note of a kind is about.
fn about<'a>(event: &Event<'a>, kind: BlockNoteKind) -> &'a [u8]
    ensures { result.now ≡ about event.now kind }
{
    match kind {
        BlockNoteKind::UnknownAction => event.action(),
        BlockNoteKind::StoredByUdev => STORED,
        BlockNoteKind::BehindCommands => event.misplaced().unwrap_or(b""),
        BlockNoteKind::PathBeginsWithSys
        | BlockNoteKind::NoSubsystem
        | BlockNoteKind::GoneAttributes
        | BlockNoteKind::ReturnAtEnds => event.device().path(),
    }
}

/// Adds the note of a kind, if it is due.
fn push_due(
    alloc: Global,
    event: &Event<'_>,
    kind: BlockNoteKind,
    notes: &mut Vec<BlockNote>,
) -> Result<(), AllocError>
    ensures { OnOk result (notes.new.items ≡ notes.old.items ++ due_note event.now kind) }
{
    if is_due(event, kind) {
        let word = Bytes::copy_of(alloc, word_of(about(event, kind)))?;
        notes.push(BlockNote { kind, word })?;
    }
    Ok(())
}

/// Adds those notes of these kinds that are due.
fn push_each_due(
    alloc: Global,
    event: &Event<'_>,
    kinds: &[BlockNoteKind],
    notes: &mut Vec<BlockNote>,
) -> Result<(), AllocError>
    ensures { OnOk result (notes.new.items ≡ notes.old.items ++ flat_map (due_note event.now) kinds.now) }
{
    for kind in kinds {
        push_due(alloc, event, *kind, notes)?;
    }
    Ok(())
}

/// The notes about a block over which rules are evaluated as by udev.
fn udev_notes(alloc: Global, event: &Event<'_>) -> Result<Vec<BlockNote>, AllocError>
    ensures { IfOk result (λ notes. notes.items ≡ udev_notes event.now) }
{
    let mut notes = Vec::new(alloc);
    push_each_due(alloc, event, &KINDS, &mut notes)?;
    Ok(notes)
}

/// The notes about the block of an event, of each kind at most one, in the order of their kinds. By the manual there are none.
#[tactic(auto, unfolding(crate::specs::Notes::block_notes))]
pub fn block_notes(alloc: Global, event: &Event<'_>) -> Result<Vec<BlockNote>, AllocError>
    ensures { IfOk result (λ notes. notes.items ≡ block_notes event.now) }
{
    match event.profile() {
        Profile::Manual => Ok(Vec::new(alloc)),
        Profile::Udev => udev_notes(alloc, event),
    }
}
