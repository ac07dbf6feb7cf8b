//! Sessions and turns with an answering that says the action and the path of an event.
ghost use Rattle.std.specs.Prelude.{[], ◌∷◌, ◌++◌};
ghost use Rattle.text_bytes.specs.Names.{newline, space};

use device_core::Event;
use engine_sessions::{
    Answering, MemorySink, MemorySource, Session, SessionFault, TurnFault, turn,
};
use std::alloc::{AllocError, Global};
use std::test::Fail;
use text_bytes::Bytes;

/// A block of 57 bytes, and the empty line after it.
const DISK: &[u8] = b"C: add\nP: /devices/pci0/block/sda\nU: block\nN: sda\nD: 8:0\n\n";

/// Its answer.
const DISK_ANSWER: &[u8] = b"add /devices/pci0/block/sda\n";

/// Answers with the action and the path.
#[derive(Drop)]
struct Brief;

impl Answering for Brief {
    ghost answers = { λ _ event. event.action ++ space ∷ event.device.path ++ newline ∷ [] };

    fn answer(&self, alloc: Global, event: &Event<'_>) -> Result<Bytes, AllocError> {
        let mut text = event.action().to_vec(alloc)?;
        text.push(b' ')?;
        text.extend_from_slice(event.device().path())?;
        text.push(b'\n')?;
        Ok(Bytes::new(text))
    }
}

/// Whether a piece is taken, with so many of its bytes used, for this answer or for none.
fn takes(
    alloc: Global,
    session: &mut Session<'_, Brief>,
    piece: &[u8],
    used: usize,
    answer: Option<&[u8]>,
) -> bool {
    match session.take(alloc, piece) {
        Ok(step) => step.used == used && is_answer(&step.answer, answer),
        Err(_fault) => false,
    }
}

/// Whether there is this answer, or none if none is wanted.
fn is_answer(answer: &Option<Bytes>, wanted: Option<&[u8]>) -> bool {
    match (answer, wanted) {
        (Some(answer), Some(wanted)) => answer.as_slice() == wanted,
        (None, None) => true,
        _ => false,
    }
}

/// A turn, and nothing else: a function that calls `turn` itself is slow to check, because of its long contract.
fn one_turn(
    alloc: Global,
    session: &mut Session<'_, Brief>,
    input: &mut MemorySource,
    output: &mut MemorySink,
) -> Result<bool, TurnFault> {
    turn(alloc, session, input, output)
}

/// Whether a session answers a block once it is whole, after empty lines.
fn block_is_answered(alloc: Global) -> Result<bool, Fail> {
    let brief = Brief;
    let mut session = Session::new(alloc, &brief)?;
    let answered = takes(alloc, &mut session, b"\n\n\n\n\n\n\n\n\n\n", 10, None)
        && takes(alloc, &mut session, DISK, 58, Some(DISK_ANSWER));
    drop(session);
    Ok(answered)
}

/// Whether a turn of a session that has ended says so, and writes nothing.
fn ended_session_stays(alloc: Global) -> Result<bool, Fail> {
    let brief = Brief;
    let mut session = Session::new(alloc, &brief)?;
    let ended = matches!(session.end(alloc), Ok(None));
    let mut input = MemorySource::new(alloc, Vec::from_slice(alloc, DISK)?, 9, 99, 99)?;
    let mut output = MemorySink::new(alloc, 99, 99)?;
    let turned = one_turn(alloc, &mut session, &mut input, &mut output);
    drop(session);
    Ok(
        ended
            && turned == Err(TurnFault::Session(SessionFault::Ended))
            && output.bytes_taken().is_empty(),
    )
}

#[test]
fn a_caller_answers_in_its_own_way(rt: HostRuntime) -> Result<(), Fail> {
    let alloc = rt.alloc();
    assert!(rt; block_is_answered(alloc)?);
    assert!(rt; ended_session_stays(alloc)?);
    Ok(())
}
