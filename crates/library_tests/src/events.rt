//! Blocks as a caller cuts and reads them, what is known about an event before any rule has run, and what is
//! reported for one when all have run.
use device_core::{BlockFaultKind, Event, ProgramAnswer, SplitFault, Splitter, Taken, read_block};
use eval_rules::{Command, Commands};
use eval_state::{Label, Labels, Note, NoteKind, Notes, State};
use rule_core::RunType;
use std::alloc::{AllocError, Global};
use std::test::Fail;
use text_bytes::Bytes;

/// The blocks of an input that comes in pieces of a size, each with a `|` after it, and the fault.
fn blocks_of(
    alloc: Global,
    input: &[u8],
    size: usize,
) -> Result<(Vec<u8>, Option<SplitFault>), AllocError> {
    let mut splitter = Splitter::new(alloc)?;
    let mut blocks = Vec::new(alloc);
    let mut later = input;
    for _ in 0..input.len() {
        let (piece, following) = later.split_at(size.min(later.len()));
        later = following;
        let mut left = piece;
        for _ in 0..piece.len() {
            match splitter.take(left) {
                Ok(taken) => {
                    if taken.whole {
                        blocks.extend_from_slice(splitter.block())?;
                        blocks.push(b'|')?;
                    }
                    left = &left[taken.used..];
                }
                Err(fault) => return Ok((blocks, Some(fault))),
            }
        }
    }
    if let Ok(true) = splitter.end() {
        blocks.extend_from_slice(splitter.block())?;
        blocks.push(b'|')?;
    }
    Ok((blocks, None))
}

/// Whether blocks are cut out of an input in pieces of a size, however many empty lines are around them.
fn blocks_are_cut(alloc: Global, size: usize) -> Result<bool, AllocError> {
    let input = b"\n\nC: add\nP: /a\n\n\nC: remove\n\n \n\nC: move\nP: /b".as_slice();
    let (blocks, fault) = blocks_of(alloc, input, size)?;
    Ok(
        fault.is_none()
            && blocks.as_slice() == b"C: add\nP: /a\n|C: remove\n| \n|C: move\nP: /b|".as_slice(),
    )
}

/// A block with a property of so many letters: 27 bytes more.
fn block_with(alloc: Global, letters: usize) -> Result<Vec<u8>, AllocError> {
    let mut block = Vec::from_slice(alloc, b"C: add\nP: /devices/x\nE: X=")?;
    block.extend_from_slice(vec![in alloc; b'x'; letters]?.as_slice())?;
    block.push(b'\n')?;
    Ok(block)
}

/// Whether a block of 65,536 bytes is cut out of an input in pieces of a size, and one with a byte more is too long.
fn longest_is_cut(alloc: Global, size: usize) -> Result<bool, AllocError> {
    let mut longest = block_with(alloc, 65_509)?;
    longest.push(b'\n')?;
    let (blocks, fault) = blocks_of(alloc, &longest, size)?;
    let mut too_long = block_with(alloc, 65_510)?;
    too_long.push(b'\n')?;
    let (none, found) = blocks_of(alloc, &too_long, size)?;
    Ok(
        fault.is_none()
            && blocks.len() == 65_537
            && found == Some(SplitFault::TooLong { line: 3 })
            && none.is_empty(),
    )
}

/// Whether a call takes so many bytes, and whether it ends a block with them.
fn takes(splitter: &mut Splitter, piece: &[u8], used: usize, whole: bool) -> bool {
    splitter.take(piece) == Ok(Taken { used, whole })
}

/// Whether each call ends at the first complete block.
fn each_call_ends_a_block(alloc: Global) -> Result<bool, AllocError> {
    let mut splitter = Splitter::new(alloc)?;
    let mut input = Vec::new(alloc);
    let block = b"C: add\nP: /devices/pci0000:00/0000:00:14.0\nU: pci\nN: 123\n".as_slice();
    for _ in 0..3 {
        input.extend_from_slice(block)?;
        input.push(b'\n')?;
    }
    let mut well = takes(&mut splitter, b"\n\n\n\n\n\n\n\n\n\n", 10, false);
    for k in 0..3usize {
        let following = input.get(k * 58..).unwrap_or(b"");
        well = takes(&mut splitter, following, 58, true) && splitter.block() == block && well;
    }
    Ok(well && splitter.end() == Ok(false))
}

/// Whether nothing is taken after the end, and nothing is lent.
fn nothing_follows_the_end(alloc: Global) -> Result<bool, AllocError> {
    let mut splitter = Splitter::new(alloc)?;
    let well = splitter.take(b"C: add").is_ok()
        && splitter.end() == Ok(true)
        && splitter.block() == b"C: add".as_slice()
        && splitter.take(b"x") == Err(SplitFault::Ended)
        && splitter.block() == b"".as_slice()
        && splitter.end() == Err(SplitFault::Ended)
        && splitter.block() == b"".as_slice();
    Ok(well)
}

#[test]
fn blocks_do_not_depend_on_the_pieces(rt: HostRuntime) -> Result<(), Fail> {
    let alloc = rt.alloc();
    for size in [1, 2, 3, 7, 8, 99] {
        assert!(rt; blocks_are_cut(alloc, size)?);
    }
    for size in [1, 4096, 65_537] {
        assert!(rt; longest_is_cut(alloc, size)?);
    }
    assert!(rt; each_call_ends_a_block(alloc)?);
    assert!(rt; nothing_follows_the_end(alloc)?);
    Ok(())
}

/// The line and the kind of what is wrong with a block, if anything is.
fn fault_of(alloc: Global, block: &[u8]) -> Option<(usize, BlockFaultKind)> {
    match read_block(alloc, block) {
        Ok(_event) => None,
        Err(fault) => Some((fault.line, fault.kind)),
    }
}

/// Whether a block of 65,536 bytes is read, and one with a byte more is too long in its last line.
fn longest_is_read(alloc: Global) -> Result<bool, AllocError> {
    let longest = block_with(alloc, 65_509)?;
    let too_long = block_with(alloc, 65_510)?;
    Ok(
        longest.len() == 65_536
            && fault_of(alloc, &longest).is_none()
            && fault_of(alloc, &too_long) == Some((3, BlockFaultKind::TooLong)),
    )
}

/// A block with a constant, two programs and a parent that has only one attribute.
const BLOCK: &[u8] = b"C: change
K: arch=x86-64
P: /devices/x/cciss!c0d1
E: ACTION=old
S: disk/x
Q: blkid -o x
R: 0 TYPE=ext4 
P: /devices/x
A: serial=8
Q: false
R: 255
";

/// Whether a program gave this answer.
fn has_answer(answer: Option<&ProgramAnswer<'_>>, status: u8, text: &[u8]) -> bool {
    match answer {
        Some(answer) => answer.status() == status && answer.text() == text,
        None => false,
    }
}

/// Whether an event has the answers of the block's programs, with the status of each.
fn has_its_answers(event: &Event<'_>) -> bool {
    event.programs().as_map().len() == 2
        && has_answer(event.programs().get(b"blkid -o x"), 0, b"TYPE=ext4 ")
        && has_answer(event.programs().get(b"false"), 255, b"")
}

/// Whether an event has its two devices, and for the parent no more than the block says.
fn has_its_devices(event: &Event<'_>) -> bool {
    match event.device_at(1) {
        Some(parent) => {
            event.device_count() == 2
                && event.device_at(2).is_none()
                && event.constants().as_map().len() == 1
                && parent.attrs().as_map().len() == 1
                && parent.env().as_map().len() == 0
                && parent.links().as_slice().len() == 0
                && parent.number().is_none()
        }
        None => false,
    }
}

/// Whether the block is read like this.
fn is_read(alloc: Global) -> bool {
    match read_block(alloc, BLOCK) {
        Ok(event) => has_its_answers(&event) && has_its_devices(&event),
        Err(_fault) => false,
    }
}

/// Whether what is known begins with the event's own properties and links, and nothing is selected.
fn is_begun(state: &State<'_>) -> bool {
    state.property(b"ACTION") == b"change".as_slice()
        && state.property(b"X").is_empty()
        && state.selected.is_none()
        && state.result.as_slice().is_empty()
        && state.links.as_slice().len() == 1
        && state.event.kernel_at(1) == Some(b"x".as_slice())
}

/// Whether all of it but the event is forgotten.
fn is_cleared(state: &State<'_>) -> bool {
    state.property(b"ACTION").is_empty()
        && state.links.as_slice().is_empty()
        && state.event.kernel() == b"cciss/c0d1".as_slice()
}

/// Whether both hold, one after the other, for what is known about an event.
fn begins_and_clears(alloc: Global, event: &Event<'_>) -> bool {
    let Ok(mut state) = State::new(alloc, event) else {
        return false;
    };
    let is_begun = is_begun(&state);
    state.clear(alloc);
    let is_cleared = is_cleared(&state);
    drop(state);
    is_begun && is_cleared
}

/// Whether both hold for the block's event.
fn block_begins_and_clears(alloc: Global) -> bool {
    let Ok(event) = read_block(alloc, BLOCK) else {
        return false;
    };
    let is_so = begins_and_clears(alloc, &event);
    drop(event);
    is_so
}

#[test]
fn an_event_is_read_and_what_is_known_begins_with_it(rt: HostRuntime) -> Result<(), Fail> {
    let alloc = rt.alloc();
    assert!(rt; fault_of(alloc, b"") == Some((1, BlockFaultKind::NoAction)));
    assert!(rt; longest_is_read(alloc)?);
    assert!(rt; is_read(alloc));
    assert!(rt; block_begins_and_clears(alloc));
    Ok(())
}

/// A note that a name was not given.
fn note(alloc: Global, line: u32) -> Result<Note, AllocError> {
    Ok(Note {
        file: Bytes::copy_of(alloc, b"a.rules")?,
        line,
        kind: NoteKind::NameIgnored,
        word: Bytes::copy_of(alloc, b"eth0")?,
    })
}

/// Whether notes are made from a list, and give it back with one more.
fn notes_are_given(alloc: Global) -> Result<bool, AllocError> {
    let mut notes = Notes::from_vec(vec![in alloc; note(alloc, 2)?, note(alloc, 1)?]?);
    notes.add(note(alloc, 3)?)?;
    let count = notes.as_slice().len();
    let held = notes.into_vec();
    Ok(match held.as_slice() {
        [first, second, third] => {
            count == 3 && first.line == 2 && second.line == 1 && third.line == 3
        }
        _ => false,
    })
}

/// A program to be run.
fn command(alloc: Global, text: &[u8]) -> Result<Command, AllocError> {
    Ok(Command {
        kind: RunType::Program,
        text: Bytes::copy_of(alloc, text)?,
    })
}

/// Whether commands are made from a list, and give it back.
fn commands_are_given(alloc: Global) -> Result<bool, AllocError> {
    let commands = Commands::from_vec(vec![in alloc;
        command(alloc, b"b")?,
        command(alloc, b"a")?,
    ]?);
    let count = commands.as_slice().len();
    let held = commands.into_vec();
    Ok(match held.as_slice() {
        [first, second] => {
            count == 2
                && first.text.as_slice() == b"b".as_slice()
                && second.text.as_slice() == b"a".as_slice()
        }
        _ => false,
    })
}

/// A label of a module.
fn label(alloc: Global, name: &[u8], text: &[u8]) -> Result<Label, AllocError> {
    let name = Bytes::copy_of(alloc, name)?;
    Ok(Label::new(name, Bytes::copy_of(alloc, text)?))
}

/// Whether labels are made from a list, and give it back with one more.
fn labels_are_given(alloc: Global) -> Result<bool, AllocError> {
    let held = vec![in alloc; label(alloc, b"b", b"1")?, label(alloc, b"a", b"2")?]?;
    let mut labels = Labels::from_vec(held);
    labels.put(alloc, b"b", Bytes::copy_of(alloc, b"3")?)?;
    let held = labels.into_vec();
    Ok(match held.as_slice() {
        [first, second] => { first.text() == b"3".as_slice() && second.name() == b"a".as_slice() }
        _ => false,
    })
}

#[test]
fn notes_commands_and_labels_are_given_and_taken(rt: HostRuntime) -> Result<(), Fail> {
    assert!(rt; notes_are_given(rt.alloc())?);
    assert!(rt; commands_are_given(rt.alloc())?);
    assert!(rt; labels_are_given(rt.alloc())?);
    Ok(())
}
