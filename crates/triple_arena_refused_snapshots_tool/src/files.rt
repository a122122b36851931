//! A writer that asks for no memory, and files by the format's page.

use std::io;
use std::io::{ErrorKind, Write};

/// How many bytes it holds.
pub const ROOM: usize = 128;

/// Holds what is written.
#[derive(Drop)]
pub struct Held {
    bytes: [u8; ROOM],
    len: usize,
}

impl Held {
    pub fn new() -> Held {
        Held {
            bytes: [0; ROOM],
            len: 0,
        }
    }

    /// Holds these too, as far as there is room.
    pub fn hold(&mut self, bytes: &[u8]) {
        for byte in bytes {
            if let Some(place) = self.bytes.get_mut(self.len) {
                *place = *byte;
                self.len = self.len.saturating_add(1);
            }
        }
    }

    /// Whether it holds these bytes, and no others.
    pub fn is(&self, bytes: &[u8]) -> bool {
        match self.bytes.get(..self.len) {
            Some(held) => held == bytes,
            None => false,
        }
    }
}

impl Write for Held {
    fn write(&mut self, buf: &[u8]) -> io::Result<usize> {
        let count = buf.len().min(ROOM.saturating_sub(self.len));
        self.hold(&buf[..count]);
        match count {
            0 => Err(io::Error::from(ErrorKind::WriteZero)),
            _ => Ok(count),
        }
    }

    fn flush(&mut self) -> io::Result<()> {
        Ok(())
    }
}

/// The file of a vector of two texts, "a" and "bc".
pub const TEXTS: &[u8] = &[
    116, 114, 105, 97, 114, 101, 110, 97, 2, 2, 0, 0, 0, 0, 0, 0, 0, 23, 24, 27, 0, 0, 0, 0, 0, 0,
    0, 2, 0, 0, 0, 0, 0, 0, 0, 1, 0, 0, 0, 0, 0, 0, 0, 97, 2, 0, 0, 0, 0, 0, 0, 0, 98, 99, 225,
    252, 94, 124,
];

/// The file of the arena of the format's page.
pub const ARENA: &[u8] = &[
    116, 114, 105, 97, 114, 101, 110, 97, 2, 2, 0, 0, 0, 0, 0, 0, 0, 37, 1, 49, 0, 0, 0, 0, 0, 0,
    0, 255, 255, 0, 0, 0, 0, 0, 0, 2, 3, 0, 0, 0, 0, 0, 0, 0, 0, 0, 1, 2, 0, 9, 4, 0, 2, 0, 0, 0,
    0, 0, 0, 0, 2, 0, 0, 0, 0, 0, 0, 0, 1, 0, 0, 0, 0, 0, 0, 0, 140, 79, 14, 34,
];

/// The file of a strict arena with the same arena inside.
pub const STRICT: &[u8] = &[
    116, 114, 105, 97, 114, 101, 110, 97, 2, 2, 0, 0, 0, 0, 0, 0, 0, 39, 1, 49, 0, 0, 0, 0, 0, 0,
    0, 255, 255, 0, 0, 0, 0, 0, 0, 2, 3, 0, 0, 0, 0, 0, 0, 0, 0, 0, 1, 2, 0, 9, 4, 0, 2, 0, 0, 0,
    0, 0, 0, 0, 2, 0, 0, 0, 0, 0, 0, 0, 1, 0, 0, 0, 0, 0, 0, 0, 228, 84, 141, 74,
];

/// The file of the direct arena of the same entry.
pub const DIRECT: &[u8] = &[
    116, 114, 105, 97, 114, 101, 110, 97, 2, 2, 0, 0, 0, 0, 0, 0, 0, 38, 1, 23, 0, 0, 0, 0, 0, 0,
    0, 255, 255, 0, 0, 0, 0, 0, 0, 2, 3, 0, 0, 0, 0, 0, 0, 0, 0, 0, 1, 2, 0, 9, 203, 132, 60, 162,
];
