//! Sessions that get an input piece by piece, and turns that answer a block with its last byte.
use crate::runs::{AMPLE, ANSWER, BLOCK, DISK, Given, OF_DISKS, files_of, input_of, output_of};
use builtin_core::Builtins;
use builtin_devices::RootFiles;
use device_core::{BlockFault, BlockFaultKind};
use engine_core::{MemorySink, MemorySource, Session, SessionFault, Tables, turn};
use hwdb_core::{PlainDb, read_sources};
use link_files::LinkFile;
use rule_core::read_rules;
use std::alloc::Global;
use std::test::Fail;
use text_bytes::Bytes;

/// What files of rules answer without a database, with these `.link` files and files of the root.
fn tables_of<'l>(
    alloc: Global,
    given: &[Given<'_>],
    links: &'l [LinkFile],
    found: &'l RootFiles,
) -> Result<Tables<Builtins<'l, PlainDb>>, Fail> {
    let Ok(read) = read_rules(alloc, &files_of(alloc, given)?) else {
        return Err("no rules")?;
    };
    let rules = read.into_rules();
    match read_sources(alloc, &Vec::new(alloc)) {
        Ok(database) => Ok(Tables::new(
            alloc,
            rules,
            Builtins::new(PlainDb::new(database.entries), links, found),
        )?),
        Err(_fault) => {
            drop(rules);
            Err("no database")?
        }
    }
}

/// Whether a session uses so many bytes of a piece, for this answer or for none.
fn takes(
    alloc: Global,
    session: &mut Session<'_, Tables<Builtins<'_, PlainDb>>>,
    piece: &[u8],
    used: usize,
    answer: Option<&[u8]>,
) -> bool {
    match session.take(alloc, piece) {
        Ok(step) => step.used == used && is_answer(&step.answer, answer),
        Err(_fault) => false,
    }
}

/// Whether a session ends with this answer, or with none.
fn ends(
    alloc: Global,
    session: &mut Session<'_, Tables<Builtins<'_, PlainDb>>>,
    answer: Option<&[u8]>,
) -> bool {
    match session.end(alloc) {
        Ok(last) => is_answer(&last, answer),
        Err(_fault) => false,
    }
}

/// Whether there is this answer, or none if none is wanted.
fn is_answer(answer: &Option<Bytes>, wanted: Option<&[u8]>) -> bool {
    match (answer, wanted) {
        (Some(answer), Some(wanted)) => answer.as_slice() == wanted,
        (None, None) => true,
        _ => false,
    }
}

/// Whether a session has ended, so that it answers nothing more.
fn has_ended(alloc: Global, session: &mut Session<'_, Tables<Builtins<'_, PlainDb>>>) -> bool {
    session.take(alloc, b"x").err() == Some(SessionFault::Ended)
        && session.end(alloc).err() == Some(SessionFault::Ended)
}

/// Three disks.
const THREE_BLOCKS: &[u8] = b"C: add\nP: /devices/pci0/block/sda\nU: block\nN: sda\nD: 8:0\n\n\
C: add\nP: /devices/pci0/block/sda\nU: block\nN: sda\nD: 8:0\n\n\
C: add\nP: /devices/pci0/block/sda\nU: block\nN: sda\nD: 8:0\n\n";

/// Three blocks, the second of which has a wrong path in its third line.
const FAULTY: &[u8] = b"C: add\nP: /devices/pci0/block/sda\nU: block\nN: sda\nD: 8:0\n\n\
C: add\nP: /devices/a\nP: /devices/b\n\n\
C: add\nP: /devices/pci0/block/sda\nU: block\nN: sda\nD: 8:0\n\n";

/// What is wrong with the second of them.
const WRONG_PATH: SessionFault = SessionFault::Block(
    2,
    BlockFault {
        line: 3,
        kind: BlockFaultKind::Path,
    },
);

/// Whether three blocks in one piece are answered in three calls, and nothing is left for the end.
fn each_block_is_answered(
    alloc: Global,
    tables: &Tables<Builtins<'_, PlainDb>>,
) -> Result<bool, Fail> {
    let mut session = Session::new(alloc, tables)?;
    let (_, following) = THREE_BLOCKS.split_at(58);
    let (_, last) = THREE_BLOCKS.split_at(116);
    let answered = takes(alloc, &mut session, THREE_BLOCKS, 58, Some(ANSWER))
        && takes(alloc, &mut session, following, 58, Some(ANSWER))
        && takes(alloc, &mut session, last, 58, Some(ANSWER))
        && ends(alloc, &mut session, None)
        && has_ended(alloc, &mut session);
    drop(session);
    Ok(answered)
}

/// Whether a block without the empty line after it is answered at the end, and not before.
fn the_last_block_is_answered(
    alloc: Global,
    tables: &Tables<Builtins<'_, PlainDb>>,
) -> Result<bool, Fail> {
    let mut session = Session::new(alloc, tables)?;
    let answered = takes(alloc, &mut session, DISK, 57, None)
        && ends(alloc, &mut session, Some(ANSWER));
    drop(session);
    Ok(answered)
}

/// Whether a piece stops a session at the wrong path of its second block.
fn is_stopped(
    alloc: Global,
    session: &mut Session<'_, Tables<Builtins<'_, PlainDb>>>,
    piece: &[u8],
) -> bool {
    match session.take(alloc, piece) {
        Ok(_step) => false,
        Err(fault) => fault == WRONG_PATH,
    }
}

/// Whether the block before a faulty one is answered, and the one after it is not.
fn a_faulty_block_is_the_last(
    alloc: Global,
    tables: &Tables<Builtins<'_, PlainDb>>,
) -> Result<bool, Fail> {
    let mut session = Session::new(alloc, tables)?;
    let (_, following) = FAULTY.split_at(58);
    let ended = takes(alloc, &mut session, FAULTY, 58, Some(ANSWER))
        && is_stopped(alloc, &mut session, following)
        && has_ended(alloc, &mut session);
    drop(session);
    Ok(ended)
}

/// Whether so many turns go on, and nothing goes out.
fn is_held_back(
    alloc: Global,
    session: &mut Session<'_, Tables<Builtins<'_, PlainDb>>>,
    input: &mut MemorySource,
    output: &mut MemorySink,
    turns: usize,
) -> bool {
    for _turn in 0..turns {
        match turn(alloc, session, input, output) {
            Ok(true) if output.bytes_taken().is_empty() => {}
            _ => return false,
        }
    }
    true
}

/// Whether the answer goes out, and is flushed, in the next turn.
fn is_sent_now(
    alloc: Global,
    session: &mut Session<'_, Tables<Builtins<'_, PlainDb>>>,
    input: &mut MemorySource,
    output: &mut MemorySink,
) -> bool {
    match turn(alloc, session, input, output) {
        Ok(more) => more && output.bytes_flushed() == ANSWER,
        Err(_fault) => false,
    }
}

/// Whether an answer goes out in the turn that reads the last byte of its block, and nothing before, if the input
/// gives a byte at a time.
fn is_sent_at_its_end(alloc: Global, tables: &Tables<Builtins<'_, PlainDb>>) -> Result<bool, Fail> {
    let mut input = input_of(alloc, BLOCK, 1)?;
    let mut output = output_of(alloc, AMPLE)?;
    let mut session = Session::new(alloc, tables)?;
    let is_sent = is_held_back(
        alloc,
        &mut session,
        &mut input,
        &mut output,
        BLOCK.len() - 1,
    ) && is_sent_now(alloc, &mut session, &mut input, &mut output);
    drop(session);
    Ok(is_sent)
}

/// Whether sessions answer a block once it is whole, and nothing after a faulty one, and turns send it at once.
fn sessions_answer(alloc: Global, tables: &Tables<Builtins<'_, PlainDb>>) -> Result<bool, Fail> {
    Ok(
        each_block_is_answered(alloc, tables)?
            && the_last_block_is_answered(alloc, tables)?
            && a_faulty_block_is_the_last(alloc, tables)?
            && is_sent_at_its_end(alloc, tables)?,
    )
}

#[test]
fn sessions_answer_block_by_block(rt: HostRuntime) -> Result<(), Fail> {
    let links = Vec::new(rt.alloc());
    let found = RootFiles::new(rt.alloc());
    let tables = tables_of(rt.alloc(), &OF_DISKS, &links, &found)?;
    let answered = sessions_answer(rt.alloc(), &tables);
    drop(tables);
    assert!(rt; answered?);
    Ok(())
}

/// Passes a piece to a session, call by call, and appends the answers to a text.
///
/// A call that says it used more than it was given also ends here.
fn take_all(
    alloc: Global,
    session: &mut Session<'_, Tables<Builtins<'_, PlainDb>>>,
    piece: &[u8],
    text: &mut Vec<u8>,
) -> Result<(), SessionFault> {
    let mut rest = piece;
    for _call in 0..piece.len() {
        let step = session.take(alloc, rest)?;
        rest = rest.get(step.used..).ok_or(SessionFault::Ended)?;
        if let Some(answer) = step.answer {
            text.extend_from_slice(answer.as_slice())
                .map_err(|_refused| SessionFault::Memory)?;
        }
    }
    Ok(())
}

/// Passes an input to a session in pieces of so many bytes, and appends the answers to a text.
fn feed_in_pieces(
    alloc: Global,
    session: &mut Session<'_, Tables<Builtins<'_, PlainDb>>>,
    input: &[u8],
    size: usize,
    text: &mut Vec<u8>,
) -> Result<(), SessionFault> {
    let mut rest = input;
    for _piece in 0..input.len() {
        let (piece, following) = rest.split_at(size.min(rest.len()));
        take_all(alloc, session, piece, text)?;
        rest = following;
    }
    Ok(())
}

/// How many bytes a session answers to an input in pieces of so many bytes, if nothing fails.
fn answered(
    alloc: Global,
    tables: &Tables<Builtins<'_, PlainDb>>,
    input: &[u8],
    size: usize,
) -> Result<usize, Fail> {
    let mut session = Session::new(alloc, tables)?;
    let mut text = Vec::new(alloc);
    let fed = feed_in_pieces(alloc, &mut session, input, size, &mut text);
    drop(session);
    fed?;
    Ok(text.len())
}

/// Whether a fault is that of a first block whose third line exceeds the room.
fn is_too_long(fault: &SessionFault) -> bool {
    match fault {
        SessionFault::Block(number, fault) => {
            *number == 1 && fault.line == 3 && fault.kind == BlockFaultKind::TooLong
        }
        _ => false,
    }
}

/// Whether an input in pieces of so many bytes ends a session as too long, with no answer.
fn is_refused(
    alloc: Global,
    tables: &Tables<Builtins<'_, PlainDb>>,
    input: &[u8],
    size: usize,
) -> Result<bool, Fail> {
    let mut session = Session::new(alloc, tables)?;
    let mut text = Vec::new(alloc);
    let refused = match feed_in_pieces(alloc, &mut session, input, size, &mut text) {
        Err(fault) => is_too_long(&fault) && text.is_empty() && has_ended(alloc, &mut session),
        Ok(()) => false,
    };
    drop(session);
    Ok(refused)
}

/// A block with a property of so many letters, which are 27 bytes more, and the empty line after it.
fn whole_block(alloc: Global, letters: usize) -> Result<Vec<u8>, Fail> {
    let mut block = Vec::from_slice(alloc, b"C: add\nP: /devices/x\nE: X=")?;
    block.extend_from_slice(vec![in alloc; b'x'; letters]?.as_slice())?;
    block.extend_from_slice(b"\n\n")?;
    Ok(block)
}

/// Whether a block of 65,536 bytes is answered in pieces of each size, and one with a byte more ends the session.
fn each_size_has_room(alloc: Global, tables: &Tables<Builtins<'_, PlainDb>>) -> Result<bool, Fail> {
    let longest = whole_block(alloc, 65_509)?;
    let too_long = whole_block(alloc, 65_510)?;
    // event add /devices/x, env ACTION=add, env DEVPATH=/devices/x, env X= and the letters, and an empty line
    let whole = 21 + 15 + 23 + 6 + 65_509 + 1 + 1;
    for size in [1, 4096, 65_537] {
        if answered(alloc, tables, &longest, size)? != whole
            || !is_refused(alloc, tables, &too_long, size)?
        {
            return Ok(false);
        }
    }
    Ok(true)
}

#[test]
fn a_block_has_65536_bytes_in_any_pieces(rt: HostRuntime) -> Result<(), Fail> {
    let links = Vec::new(rt.alloc());
    let found = RootFiles::new(rt.alloc());
    let tables = tables_of(rt.alloc(), &[], &links, &found)?;
    let has_room = each_size_has_room(rt.alloc(), &tables);
    drop(tables);
    assert!(rt; has_room?);
    Ok(())
}
