//! A reader and a writer for the adapters over the standard streams: calls of them are interrupted, fail or move a part.
//! The language: README.md, "Settings".
//! The rule: docs/PROVING.md, "Tests".

use crate::settings::Settings;
use std::io;
use std::io::{ErrorKind, Read, Write};

/// The calls of a reader or a writer.
#[derive(Clone, Copy)]
pub struct Calls {
    /// How many are interrupted before each other one.
    interrupted: u32,
    /// How many were interrupted behind the last other one.
    waited: u32,
    /// How many others were made, and which of them fails.
    made: u32,
    failing: u32,
    /// The most bytes that one moves.
    most: u32,
}

impl Calls {
    /// No call so far.
    pub fn new(settings: &Settings, failing: u32) -> Self {
        Calls {
            interrupted: settings.interrupted,
            waited: 0,
            made: 0,
            failing,
            most: settings.most,
        }
    }

    /// The most bytes that the next call moves.
    fn next(&mut self) -> io::Result<usize> {
        if self.waited < self.interrupted {
            self.waited = self.waited.saturating_add(1);
            return Err(io::Error::from(ErrorKind::Interrupted));
        }
        self.waited = 0;
        self.made = self.made.saturating_add(1);
        if self.made == self.failing {
            return Err(io::Error::from(ErrorKind::BrokenPipe));
        }
        Ok(self.most as usize)
    }
}

/// A reader of some bytes.
#[derive(Drop)]
pub struct Reader<'a> {
    pub calls: Calls,
    pub left: &'a [u8],
}

impl Read for Reader<'_> {
    fn read(&mut self, buf: &mut [u8]) -> io::Result<usize> {
        let n = self.calls.next()?.min(buf.len()).min(self.left.len());
        buf[..n].copy_from_slice(&self.left[..n]);
        self.left = &self.left[n..];
        Ok(n)
    }
}

/// A writer whose bytes are kept.
#[derive(Drop)]
pub struct Writer<'a> {
    pub calls: Calls,
    pub taken: &'a mut Vec<u8>,
}

impl Write for Writer<'_> {
    fn write(&mut self, piece: &[u8]) -> io::Result<usize> {
        let n = self.calls.next()?.min(piece.len());
        match self.taken.extend_from_slice(&piece[..n]) {
            Ok(()) => Ok(n),
            Err(_) => Err(io::Error::from(ErrorKind::OutOfMemory)),
        }
    }

    fn flush(&mut self) -> io::Result<()> {
        Ok(())
    }
}
