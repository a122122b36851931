//! Readers and writers that fail where a test wants it.

ghost use Rattle.std.specs.Prelude.{◌≡◌, IfOk};

use std::io;
use std::io::{ErrorKind, Read, Write};

/// How a reader gives its text: so many bytes a read at most, and after so many reads it fails so, this
/// many times.
#[derive(Clone, Copy)]
pub struct Reads {
    pub most: usize,
    pub before: usize,
    pub failure: ErrorKind,
    pub times: usize,
}

/// Gives its text.
#[derive(Drop)]
pub struct PieceReader<'a> {
    pub rest: &'a [u8],
    pub reads: Reads,
}

impl<'a> Read for PieceReader<'a> {
    fn read(&mut self, buf: &mut [u8]) -> io::Result<usize> {
        if 0 < self.reads.before {
            self.reads.before -= 1;
        } else if 0 < self.reads.times {
            self.reads.times -= 1;
            return Err(io::Error::from(self.reads.failure));
        }
        let size = buf.len().min(self.reads.most);
        self.rest.read(&mut buf[..size])
    }
}

/// How a write is refused.
#[derive(Clone, Copy)]
pub enum WriteFailure {
    /// By an error.
    Error(ErrorKind),
    /// By an error once; the writes after it are taken.
    Once(ErrorKind),
    /// It takes no byte, and says so.
    TakesNone,
    /// It is interrupted so many times, at least once, and then taken, as the writes after it are.
    Interrupted(usize),
}

/// How a writer takes its bytes: so many a write at most, and after so many writes the next is refused
/// so, with those after it where the failure says no other.
#[derive(Clone, Copy)]
pub struct Writes {
    pub most: usize,
    pub before: usize,
    pub failure: WriteFailure,
}

/// Holds what was written, and counts its flushes.
#[derive(Drop)]
pub struct PieceWriter {
    pub bytes: Vec<u8>,
    pub writes: Writes,
    pub flushes: usize,
}

impl PieceWriter {
    // What the write answers that is refused: it takes no byte.
    fn refuse(&mut self) -> io::Result<usize>
        ensures { IfOk result (λ count. count ≡ 0) }
    {
        match self.writes.failure {
            WriteFailure::Error(kind) => Err(io::Error::from(kind)),
            WriteFailure::Once(kind) => {
                self.writes.before = usize::MAX;
                Err(io::Error::from(kind))
            }
            WriteFailure::TakesNone => Ok(0),
            WriteFailure::Interrupted(times) => {
                if times > 1 {
                    self.writes.failure = WriteFailure::Interrupted(times - 1);
                } else {
                    self.writes.before = usize::MAX;
                }
                Err(io::Error::from(ErrorKind::Interrupted))
            }
        }
    }
}

impl Write for PieceWriter {
    fn write(&mut self, buf: &[u8]) -> io::Result<usize> {
        if self.writes.before == 0 {
            return self.refuse();
        }
        self.writes.before -= 1;
        let piece = &buf[..buf.len().min(self.writes.most)];
        match self.bytes.extend_from_slice(piece) {
            Ok(()) => Ok(piece.len()),
            Err(_) => Err(io::Error::from(ErrorKind::OutOfMemory)),
        }
    }

    fn flush(&mut self) -> io::Result<()> {
        self.flushes = self.flushes.saturating_add(1);
        Ok(())
    }
}
