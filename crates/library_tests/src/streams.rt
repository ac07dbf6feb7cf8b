//! Each device at a concrete type, through its trait: whole runs, and one failure of each kind.
ghost use Rattle.std.specs.Prelude.{◌≤◌, IfOk};

use engine_sessions::{
    DeviceFault, MemorySink, MemorySource, Sink, SinkOver, Source, SourceOver, hand_on,
    hand_on_each, write_all,
};
use std::alloc::Global;
use std::io::{self, ErrorKind, Read, Write};
use std::test::Fail;

/// A stream that works for a number of calls, flushes included, with a byte in each, and then fails.
#[derive(Drop)]
struct Failing {
    calls: u8,
}

impl Failing {
    /// One more call, with a slice of this length.
    fn call(&mut self, len: usize) -> io::Result<usize>
        ensures { IfOk result (λ n. n ≤ len) }
    {
        if self.calls == 0 {
            return Err(io::Error::from(ErrorKind::Other));
        }
        self.calls -= 1;
        Ok(len.min(1))
    }
}

impl Read for Failing {
    fn read(&mut self, into: &mut [u8]) -> io::Result<usize> {
        self.call(into.len())
    }
}

impl Write for Failing {
    fn write(&mut self, text: &[u8]) -> io::Result<usize> {
        self.call(text.len())
    }

    fn flush(&mut self) -> io::Result<()> {
        self.call(0)?;
        Ok(())
    }
}

/// The sizes of what a source gives into a slice of four bytes, until it gives nothing or fails.
fn sizes_read<R: Source>(alloc: Global, source: &mut R) -> Result<(Vec<usize>, bool), Fail> {
    let mut sizes = Vec::new(alloc);
    for _ in 0..10 {
        let mut piece = [0u8; 4];
        match source.read(&mut piece) {
            Ok(0) => return Ok((sizes, true)),
            Ok(n) => sizes.push(n)?,
            Err(DeviceFault) => return Ok((sizes, false)),
        }
    }
    Ok((sizes, false))
}

/// Whether a source gives pieces of these sizes, and whether it then ends or fails.
fn gives<R: Source>(
    alloc: Global,
    source: &mut R,
    wanted: &[usize],
    ends: bool,
) -> Result<bool, Fail> {
    let (sizes, at_end) = sizes_read(alloc, source)?;
    Ok(sizes.as_slice() == wanted && at_end == ends)
}

/// The six bytes abcdef, of which so many reads give at most so many each, and fail at a place.
fn six(alloc: Global, reads: usize, each: usize, fails_at: usize) -> Result<MemorySource, Fail> {
    let bytes = Vec::from_slice(alloc, b"abcdef")?;
    Ok(MemorySource::new(alloc, bytes, reads, each, fails_at)?)
}

#[test]
fn sources_give_pieces_up_to_the_end(rt: HostRuntime) -> Result<(), Fail> {
    let alloc = rt.alloc();
    for (reads, each, fails_at, wanted, ends) in [
        (9, 9, 99, [4, 2].as_slice(), true),
        (9, 3, 99, [3, 3].as_slice(), true),
        (9, 3, 5, [3, 2].as_slice(), false),
        (9, 0, 99, [].as_slice(), false),
        (9, 9, 6, [4, 2].as_slice(), true),
        (1, 9, 99, [4].as_slice(), false),
    ] {
        let mut source = six(alloc, reads, each, fails_at)?;
        assert!(rt; gives(alloc, &mut source, wanted, ends)?);
    }
    let text: &[u8] = b"abcdef";
    assert!(rt; gives(alloc, &mut SourceOver::new(text), &[4, 2], true)?);
    let mut failing = SourceOver::new(Failing { calls: 2 });
    assert!(rt; gives(alloc, &mut failing, &[1, 1], false)?);
    Ok(())
}

/// Whether a sink of so much room takes this of a text, and shows it once it is flushed.
fn takes(alloc: Global, room: usize, each: usize, wanted: &[u8]) -> Result<bool, Fail> {
    let text = b"abcdef".as_slice();
    let mut sink = MemorySink::new(alloc, room, each)?;
    let is_whole = wanted.len() == text.len();
    let is_taken = write_all(&mut sink, text).is_ok() == is_whole
        && sink.bytes_taken() == wanted
        && (sink.faults() > 0) != is_whole
        && sink.bytes_flushed().is_empty();
    Ok(is_taken && sink.flush().is_ok() && sink.bytes_flushed() == wanted)
}

/// Whether texts that are handed on are flushed one after another, up to one that has no room.
fn each_is_flushed(alloc: Global) -> Result<bool, Fail> {
    let mut sink = MemorySink::new(alloc, 9, 2)?;
    let is_first_flushed = hand_on(&mut sink, b"abc").is_ok()
        && sink.bytes_flushed() == b"abc".as_slice();
    let are_flushed = hand_on_each(&mut sink, &[b"de", b"", b"f"]).is_ok()
        && sink.bytes_flushed() == b"abcdef".as_slice();
    Ok(
        is_first_flushed
            && are_flushed
            && hand_on_each(&mut sink, &[b"g", b"hij"]).is_err()
            && sink.bytes_taken() == b"abcdefghi".as_slice()
            && sink.bytes_flushed() == b"abcdef".as_slice(),
    )
}

/// Whether a flush that is made to fail does so, and shows nothing.
fn flush_fails(alloc: Global) -> Result<bool, Fail> {
    let mut sink = MemorySink::new(alloc, 9, 9)?;
    let is_taken = write_all(&mut sink, b"ab").is_ok();
    sink.set_flushes_fail(true);
    Ok(is_taken && sink.flush().is_err() && sink.faults() == 1 && sink.bytes_flushed().is_empty())
}

/// Whether a text goes out over a stream that works for so many calls, and a flush after it.
fn goes_out(calls: u8) -> (bool, bool) {
    let mut sink = SinkOver::new(Failing { calls });
    let is_written = write_all(&mut sink, b"abc").is_ok();
    (is_written, sink.flush().is_ok())
}

#[test]
fn sinks_take_and_flush_up_to_a_fault(rt: HostRuntime) -> Result<(), Fail> {
    let alloc = rt.alloc();
    for (room, each, wanted) in [
        (9, 9, b"abcdef".as_slice()),
        (9, 1, b"abcdef"),
        (6, 4, b"abcdef"),
        (4, 3, b"abcd"),
        (9, 0, b""),
        (0, 9, b""),
    ] {
        assert!(rt; takes(alloc, room, each, wanted)?);
    }
    assert!(rt; each_is_flushed(alloc)?);
    assert!(rt; flush_fails(alloc)?);
    // a flush reaches the writer: after three bytes it is the fourth call
    assert!(rt; goes_out(2) == (false, false));
    assert!(rt; goes_out(3) == (true, false));
    assert!(rt; goes_out(4) == (true, true));
    let mut over = SinkOver::new(Vec::new(alloc));
    assert!(rt; write_all(&mut over, b"abcdef").is_ok());
    assert!(rt; over.flush().is_ok());
    Ok(())
}
