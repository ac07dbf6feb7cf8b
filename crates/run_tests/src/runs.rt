//! Whole runs over devices in memory that take little, give little, or fail.
//!
//! Only the functions of the first part own the devices and what they took: a function that owns none of them, and
//! only says what a run should give, is quick to check.
use builtin_devices::RootFiles;
use engine_core::{Color, Format, Line, MemorySink, MemorySource, Verb, serve};
use std::alloc::{AllocError, Global};
use std::test::Fail;
use text_bytes::{Bytes, FileKind, Profile, SourceFile};

/// A file of a folder: its kind, its name and its text.
pub(crate) type Given<'a> = (FileKind, &'a str, &'a str);

/// What an output takes.
#[derive(Clone, Copy)]
pub(crate) struct Room {
    /// How much it takes before it fails.
    bytes: usize,
    /// The most that it takes in a call.
    each: usize,
    /// Whether it can be flushed.
    flushes: bool,
}

/// Room for all that a run here writes.
pub(crate) const AMPLE: Room = Room {
    bytes: 4096,
    each: 4096,
    flushes: true,
};

/// An output that can't be flushed.
const UNFLUSHED: Room = Room {
    flushes: false,
    ..AMPLE
};

/// Room for so many bytes.
fn room_for(bytes: usize) -> Room {
    Room { bytes, ..AMPLE }
}

/// An output that takes so much in a call.
fn room_by(each: usize) -> Room {
    Room { each, ..AMPLE }
}

/// What a run wrote and returned.
#[derive(Drop)]
struct Ran {
    output: Vec<u8>,
    messages: Vec<u8>,
    status: u8,
    /// Whether all that was written was flushed.
    is_flushed: bool,
}

/// What a run has to write and return.
#[derive(Clone, Copy)]
struct Expected<'a> {
    output: &'a [u8],
    messages: &'a [u8],
    status: u8,
}

/// Whether a run wrote and returned this, and all of it was flushed if no device failed.
fn is_outcome(done: &Ran, wanted: Expected<'_>) -> bool {
    done.output.as_slice() == wanted.output
        && done.messages.as_slice() == wanted.messages
        && done.status == wanted.status
        && (done.is_flushed || done.status == 3)
}

/// A line that names no file, with no option.
pub(crate) fn line<'a>(alloc: Global, verb: Verb, modalias: &'a str) -> Line<'a> {
    Line {
        verb,
        root: "",
        files: Vec::new(alloc),
        added: Vec::new(alloc),
        input_name: "-",
        strict: false,
        sources: false,
        why: Vec::new(alloc),
        questions: false,
        unused: false,
        index: None,
        modalias,
        summary: true,
        style: true,
        lint: false,
        checks_links: false,
        check: false,
        format: Format::Plain,
        color: Color::Auto,
        all: false,
        ignored: Vec::new(alloc),
        profile: Profile::Manual,
        users: None,
        groups: None,
        links: Vec::new(alloc),
    }
}

/// A file of a folder.
fn file_of(alloc: Global, given: &Given<'_>) -> Result<SourceFile, AllocError> {
    let (kind, name, text) = *given;
    Ok(SourceFile {
        kind,
        rank: 0,
        name: Bytes::copy_of(alloc, name.as_bytes())?,
        bytes: Bytes::copy_of(alloc, text.as_bytes())?,
    })
}

/// Files of folders.
pub(crate) fn files_of(alloc: Global, given: &[Given<'_>]) -> Result<Vec<SourceFile>, AllocError> {
    let mut files = Vec::new(alloc);
    for file in given {
        files.push(file_of(alloc, file)?)?;
    }
    Ok(files)
}

/// An input with a text that comes in pieces of so many bytes.
pub(crate) fn input_of(alloc: Global, text: &[u8], each: usize) -> Result<MemorySource, Fail> {
    let bytes = Vec::from_slice(alloc, text)?;
    let reads = text.len() + 2;
    Ok(MemorySource::new(alloc, bytes, reads, each, text.len())?)
}

/// An output of so much room.
pub(crate) fn output_of(alloc: Global, room: Room) -> Result<MemorySink, AllocError> {
    let mut output = MemorySink::new(alloc, room.bytes, room.each)?;
    output.set_flushes_fail(!room.flushes);
    Ok(output)
}

/// What two outputs took in a run of this status.
fn outcome_of(
    alloc: Global,
    output: &MemorySink,
    error: &MemorySink,
    status: u8,
) -> Result<Ran, AllocError> {
    let (written, reported) = (output.bytes_taken(), error.bytes_taken());
    let is_flushed = written.len() == output.bytes_flushed().len()
        && reported.len() == error.bytes_flushed().len();
    Ok(Ran {
        output: Vec::from_slice(alloc, written)?,
        messages: Vec::from_slice(alloc, reported)?,
        status,
        is_flushed,
    })
}

/// Runs a line over files, with an index instead of the database's if there is one, over an input and outputs of so
/// much room.
///
/// All tests use this: a function that calls `serve` itself is slow to check, because of its long contract.
fn run_in(
    alloc: Global,
    line: &Line<'_>,
    files: Vec<SourceFile>,
    index: Option<&[u8]>,
    input: &mut MemorySource,
    rooms: (Room, Room),
) -> Result<Ran, AllocError> {
    let (room, error_room) = rooms;
    let mut output = output_of(alloc, room)?;
    let mut error = output_of(alloc, error_room)?;
    let found = RootFiles::new(alloc);
    let status = serve(
        alloc,
        line,
        files,
        &found,
        index,
        input,
        &mut output,
        &mut error,
    );
    outcome_of(alloc, &output, &error, status)
}

/// A rule for disks, of the file r.rules.
pub(crate) const OF_DISKS: [Given<'static>; 1] = [(
    FileKind::Rules,
    "r.rules",
    "SUBSYSTEM==\"block\", KERNEL==\"sd[a-z]\", SYMLINK+=\"disk/%k\"\n",
)];

/// A disk.
pub(crate) const DISK: &[u8] = b"C: add\nP: /devices/pci0/block/sda\nU: block\nN: sda\nD: 8:0\n";

/// The same, with the empty line after its block.
pub(crate) const BLOCK: &[u8] = b"C: add\nP: /devices/pci0/block/sda\nU: block\nN: sda\nD: 8:0\n\n";

/// The answer to it.
pub(crate) const ANSWER: &[u8] =
    b"event add /devices/pci0/block/sda\nlink disk/sda\nenv ACTION=add\nenv DEVNAME=/dev/sda\n\
env DEVPATH=/devices/pci0/block/sda\nenv MAJOR=8\nenv MINOR=0\nenv SUBSYSTEM=block\n\n";

/// Whether answering an input by the rule for disks has an outcome, with an output of so much room.
fn answers(
    alloc: Global,
    input: &mut MemorySource,
    room: Room,
    wanted: Expected<'_>,
) -> Result<bool, Fail> {
    let events = line(alloc, Verb::Events, "");
    let files = files_of(alloc, &OF_DISKS)?;
    let done = run_in(alloc, &events, files, None, input, (room, AMPLE))?;
    Ok(is_outcome(&done, wanted))
}

/// Whether answering the disk, whose block ends without an empty line, goes well with an output of so much room.
fn goes_well(alloc: Global, each: usize, room: Room) -> Result<bool, Fail> {
    let mut input = input_of(alloc, DISK, each)?;
    let wanted = Expected {
        output: ANSWER,
        messages: b"",
        status: 0,
    };
    answers(alloc, &mut input, room, wanted)
}

/// Whether answering the disk with an output of so much room ends after this beginning of the answer.
fn is_broken_off(alloc: Global, room: Room, taken: &[u8]) -> Result<bool, Fail> {
    let mut input = input_of(alloc, BLOCK, 4096)?;
    let wanted = Expected {
        output: taken,
        messages: b"devdry: write failed\n",
        status: 3,
    };
    answers(alloc, &mut input, room, wanted)
}

/// A rules file with one message.
const RULES: Given<'static> = (FileKind::Rules, "60-x.rules", "KERNEL==\"sd*\n");

/// A database file with an entry and one message.
const SOURCE: Given<'static> = (FileKind::Hwdb, "s.hwdb", "m\n B=2\n\n A=1\n");

/// The message about the rules file.
const ABOUT_RULES: &str = "60-x.rules:1: V1 bad syntax: KERNEL==\"sd*\n";

/// The message about the database file.
const ABOUT_SOURCE: &str = "s.hwdb:4: H1 property without a match: A=1\n";

/// Whether a command over both files and outputs of so much room fails, with nothing on its output and this reported.
fn fails(
    alloc: Global,
    verb: Verb,
    room: Room,
    error_room: Room,
    reported: &str,
) -> Result<bool, Fail> {
    let files = files_of(alloc, &[RULES, SOURCE])?;
    let mut input = input_of(alloc, b"C: add\nP: /x\n", 4096)?;
    let asked = line(alloc, verb, "m");
    let done = run_in(alloc, &asked, files, None, &mut input, (room, error_room))?;
    let wanted = Expected {
        output: b"",
        messages: reported.as_bytes(),
        status: 3,
    };
    Ok(is_outcome(&done, wanted))
}

/// Whether a command that reports this ends where one of its outputs fails at once.
fn ends_where_an_output_fails(alloc: Global, verb: Verb, reported: &str) -> Result<bool, Fail> {
    let reported_and_failed = format!(in alloc; "{reported}devdry: write failed\n")?;
    Ok(
        fails(
            alloc,
            verb,
            room_for(0),
            AMPLE,
            reported_and_failed.as_str(),
        )? && fails(alloc, verb, AMPLE, room_for(0), "")?
            && fails(alloc, verb, AMPLE, UNFLUSHED, reported)?,
    )
}

#[test]
fn outputs_may_fail_at_once_and_at_each_byte(rt: HostRuntime) -> Result<(), Fail> {
    let alloc = rt.alloc();
    let about_both = format!(in alloc; "{ABOUT_RULES}{ABOUT_SOURCE}")?;
    for (verb, reported) in [
        (Verb::Query, ABOUT_SOURCE),
        (Verb::Update, ABOUT_SOURCE),
        (Verb::Verify, ABOUT_RULES),
        (Verb::Events, about_both.as_str()),
    ] {
        assert!(rt; ends_where_an_output_fails(alloc, verb, reported)?);
    }
    for room in 0..ANSWER.len() {
        assert!(rt; is_broken_off(alloc, room_for(room), &ANSWER[..room])?);
    }
    assert!(rt; goes_well(alloc, 4096, room_by(1))?);
    assert!(rt; is_broken_off(alloc, room_by(0), b"")?);
    assert!(rt; is_broken_off(alloc, UNFLUSHED, ANSWER)?);
    Ok(())
}

/// Whether this goes out if the reads of the block fail after so many bytes.
fn goes_out(alloc: Global, read: usize, output: &[u8]) -> Result<bool, Fail> {
    let bytes = Vec::from_slice(alloc, BLOCK)?;
    let mut input = MemorySource::new(alloc, bytes, read, 1, BLOCK.len())?;
    let wanted = Expected {
        output,
        messages: b"devdry: read failed\n",
        status: 3,
    };
    answers(alloc, &mut input, AMPLE, wanted)
}

#[test]
fn inputs_may_be_cut_and_fail_after_each_byte(rt: HostRuntime) -> Result<(), Fail> {
    let alloc = rt.alloc();
    for each in 1..=DISK.len() {
        assert!(rt; goes_well(alloc, each, AMPLE)?);
    }
    for read in 0..BLOCK.len() {
        assert!(rt; goes_out(alloc, read, b"")?);
    }
    assert!(rt; goes_out(alloc, BLOCK.len(), ANSWER)?);
    Ok(())
}

/// The index of no entries.
const EMPTY_INDEX: &[u8] = b"devdryhw\x02\0\0\0\x01\0\0\0\0\0\0\0\0\0\0\0\0\0\0\0\0\0\0\0\
    \0\0\0\0\0\0\0\0\x01\0\0\0\0\0\0\0\0\0\0\0\0\0\0\0";

/// Whether a command over files, with an index that is no index, has this outcome.
fn ends_beside_an_index(
    alloc: Global,
    verb: Verb,
    given: &[Given<'_>],
    wanted: Expected<'_>,
) -> Result<bool, Fail> {
    let files = files_of(alloc, given)?;
    let mut input = input_of(alloc, b"C: ", 4096)?;
    let asked = line(alloc, verb, "m");
    let rooms = (AMPLE, AMPLE);
    let done = run_in(alloc, &asked, files, Some(b"x"), &mut input, rooms)?;
    Ok(is_outcome(&done, wanted))
}

/// `query` and `events` refuse it, and do not read the database's files, which stand back for an index; the other
/// commands do not look at it.
#[test]
fn an_index_is_looked_at_by_query_and_events_alone(rt: HostRuntime) -> Result<(), Fail> {
    let alloc = rt.alloc();
    let written = Expected {
        output: EMPTY_INDEX,
        messages: b"",
        status: 0,
    };
    let checked = Expected {
        output: b"0 files checked, 0 good, 0 bad\n",
        messages: b"",
        status: 0,
    };
    let refused = Expected {
        output: b"",
        messages: b"devdry: index: short\n",
        status: 1,
    };
    assert!(rt; ends_beside_an_index(alloc, Verb::Update, &[], written)?);
    assert!(rt; ends_beside_an_index(alloc, Verb::Verify, &[], checked)?);
    assert!(rt; ends_beside_an_index(alloc, Verb::Query, &[SOURCE], refused)?);
    assert!(rt; ends_beside_an_index(alloc, Verb::Events, &[SOURCE], refused)?);
    Ok(())
}
