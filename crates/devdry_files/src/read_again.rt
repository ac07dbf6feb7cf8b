//! Streams whose calls are made again if a signal interrupts them.
ghost use Rattle.std.specs.Prelude.{◌≡◌};

use crate::again::{MAX_TRIES, is_interrupted};
use std::io::{self, Read, Write};

/// A reader or a writer. A call that a signal interrupts is made again, 1,000 times at most.
#[derive(Drop)]
pub struct Again<S> {
    stream: S,
}

impl<S> Again<S> {
    /// A reader or a writer over another one.
    pub fn new(stream: S) -> Again<S>
        ensures { result.stream ≡ stream }
    {
        Again { stream }
    }
}

impl<R: Read> Read for Again<R> {
    ghost remaining = { λ again. R.remaining again.stream };

    fn read(&mut self, into: &mut [u8]) -> io::Result<usize> {
        for _ in 1..MAX_TRIES {
            let read = self.stream.read(into);
            if !is_interrupted(&read) {
                return read;
            }
        }
        self.stream.read(into)
    }
}

impl<W: Write> Write for Again<W> {
    ghost contents = { λ again. W.contents again.stream };

    fn write(&mut self, text: &[u8]) -> io::Result<usize> {
        for _ in 1..MAX_TRIES {
            let written = self.stream.write(text);
            if !is_interrupted(&written) {
                return written;
            }
        }
        self.stream.write(text)
    }

    fn flush(&mut self) -> io::Result<()> {
        for _ in 1..MAX_TRIES {
            let flushed = self.stream.flush();
            if !is_interrupted(&flushed) {
                return flushed;
            }
        }
        self.stream.flush()
    }
}
