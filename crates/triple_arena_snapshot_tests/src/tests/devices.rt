//! Readers and writers of a byte at a time, which fail where a test wants it.

use std::io;
use std::io::{ErrorKind, Read, Write};

/// Gives one byte a read, and fails so many times, from the read of a given number on.
#[derive(Drop)]
pub struct Dripping<'a> {
    rest: &'a [u8],
    reads_before: usize,
    failure: ErrorKind,
    times: usize,
}

impl<'a> Dripping<'a> {
    pub fn new(
        bytes: &'a [u8],
        reads_before: usize,
        failure: ErrorKind,
        times: usize,
    ) -> Dripping<'a> {
        Dripping {
            rest: bytes,
            reads_before,
            failure,
            times,
        }
    }
}

impl<'a> Read for Dripping<'a> {
    fn read(&mut self, buf: &mut [u8]) -> io::Result<usize> {
        if 0 < self.reads_before {
            self.reads_before -= 1;
        } else if 0 < self.times {
            self.times -= 1;
            return Err(io::Error::from(self.failure));
        }
        let size = buf.len().min(1);
        self.rest.read(&mut buf[..size])
    }
}

/// Takes one byte a write, keeps it, and fails so many times, from the write of a given number on: by
/// an error, or by taking none.
#[derive(Drop)]
pub struct Trickling {
    pub bytes: Vec<u8>,
    writes_before: usize,
    failure: Option<ErrorKind>,
    times: usize,
}

impl Trickling {
    pub fn new(
        bytes: Vec<u8>,
        writes_before: usize,
        failure: Option<ErrorKind>,
        times: usize,
    ) -> Trickling {
        Trickling {
            bytes,
            writes_before,
            failure,
            times,
        }
    }
}

impl Write for Trickling {
    fn write(&mut self, buf: &[u8]) -> io::Result<usize> {
        if 0 < self.writes_before {
            self.writes_before -= 1;
        } else if 0 < self.times {
            self.times -= 1;
            return match self.failure {
                Some(kind) => Err(io::Error::from(kind)),
                None => Ok(0),
            };
        }
        let size = buf.len().min(1);
        self.bytes.write(&buf[..size])
    }

    fn flush(&mut self) -> io::Result<()> {
        Ok(())
    }
}
