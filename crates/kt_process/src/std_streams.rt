//! Adapters over the standard streams. What those give and take no contract knows; where the bytes of a reader or a
//! writer are known, the adapter moves them as it says.
//! The rules: docs/ARCHITECTURE.md, "The outside"; docs/REFUSALS.md, "Where the rule was silent".
ghost use Rattle.std.specs.Prelude.{◌≡◌, ◌<◌, ◌≤◌, length, IfSome, IfOk, Ok, Err};
ghost use Rattle.std.specs.Io.KnownBytes.{ReadConsumes, WriteAppends};
ghost use Rattle.kt_process.specs.Adapters.{ok_or_failed};
ghost use Rattle.kt_out.specs.Reading.{Reads};
ghost use Rattle.kt_out.specs.Writing.{Writes};

use kt_out::{Failed, Fault, Sink, Source};
use std::io::{ErrorKind, Read, Write};
use std::marker::Model;

/// A call that a signal interrupted is made again, until so many were.
const TRIES: u32 = 64;

/// A reader as a source. Contracts see the reader and the count of faults.
#[derive(Drop)]
pub struct StdSource<R: Read + Drop> {
    reader: R,
    faults: u64,
}

impl<R: Read + Drop> Model for StdSource<R> {
    ghost use Rattle.kt_process.specs.Adapters.{Adapted};

    ghost Value = { Adapted R };

    ghost view = { λ s. record { inner = s.reader; faults = s.faults } };
}

impl<R: Read + Drop> StdSource<R> {
    /// A source over this reader, with no fault so far.
    pub fn new(reader: R) -> Self
        ensures { result ≡ record { inner = reader; faults = 0 } }
    {
        StdSource { reader, faults: 0 }
    }
}

impl<R: Read + Drop> Source for StdSource<R> {
    ghost use Rattle.std.specs.Prelude.{None};

    ghost state = { λ s. record { left = None; faults = s.faults } };

    fn faults(&self) -> u64 {
        self.faults
    }

    // Where the reader's bytes are known, the ones that are given are the next, none are given only at their end, and
    // after `Failed` all are still to come.
    fn read(&mut self, buf: &mut [u8]) -> Result<usize, Failed>
        requires { 0 < length buf.old }

        ensures moved { Reads (record { left = None; faults = self.old.faults }) (record { left = None; faults = self.new.faults }) buf.old buf.new result }
        ensures within { IfOk result (λ n. n ≤ length buf.old) }
        ensures counted { self.old.faults ≤ self.new.faults }

        ensures bytes { ReadConsumes (R.remaining self.old.inner) (R.remaining self.new.inner) result buf.new }
    {
        match read_some(&mut self.reader, buf) {
            Some(n) => Ok(n),
            None => {
                self.faults = self.faults.saturating_add(1);
                Err(Failed)
            }
        }
    }
}

/// One read, made again where a signal interrupts it; None where it fails.
pub fn read_some<R: Read>(reader: &mut R, buf: &mut [u8]) -> Option<usize>
    ensures within { IfSome result (λ n. n ≤ length buf.old) }
    ensures bytes { ReadConsumes (R.remaining reader.old) (R.remaining reader.new) (ok_or_failed result) buf.new }
{
    'tries: for _ in 0..TRIES {
        match reader.read(buf) {
            Ok(n) => return Some(n),
            Err(error) if error.kind() == ErrorKind::Interrupted => {}
            Err(_) => return None,
        }
    }
    None
}

/// A writer as a sink. A write is taken once it returns, so the writer keeps no buffer of its own.
/// Contracts see the writer and the count of faults.
#[derive(Drop)]
pub struct StdSink<W: Write + Drop> {
    writer: W,
    faults: u64,
}

impl<W: Write + Drop> Model for StdSink<W> {
    ghost use Rattle.kt_process.specs.Adapters.{Adapted};

    ghost Value = { Adapted W };

    ghost view = { λ s. record { inner = s.writer; faults = s.faults } };
}

impl<W: Write + Drop> StdSink<W> {
    /// A sink over this writer, with no fault so far.
    pub fn new(writer: W) -> Self
        ensures { result ≡ record { inner = writer; faults = 0 } }
    {
        StdSink { writer, faults: 0 }
    }
}

impl<W: Write + Drop> Sink for StdSink<W> {
    ghost use Rattle.std.specs.Prelude.{None};

    ghost state = { λ s. record { taken = None; faults = s.faults } };

    fn faults(&self) -> u64 {
        self.faults
    }

    // Where the writer's bytes are known, it holds the ones that are answered as taken behind those that it had, and
    // after a fault no other.
    fn write(&mut self, piece: &[u8]) -> Result<usize, Fault>
        requires { 0 < length piece.now }

        ensures moved { Writes (record { taken = None; faults = self.old.faults }) (record { taken = None; faults = self.new.faults }) piece.now result }
        ensures within { IfOk result (λ n. (0 < n) × (n ≤ length piece.now)) }
        ensures counted { self.old.faults ≤ self.new.faults }

        ensures bytes { WriteAppends (W.contents self.old.inner) (W.contents self.new.inner) result piece.now }
    {
        match write_some(&mut self.writer, piece) {
            Some(n) => Ok(n),
            None => {
                self.faults = self.faults.saturating_add(1);
                Err(Fault::Failed)
            }
        }
    }
}

/// One write, made again where a signal interrupts it; None where it fails or takes nothing.
pub fn write_some<W: Write>(writer: &mut W, piece: &[u8]) -> Option<usize>
    ensures within { IfSome result (λ n. (0 < n) × (n ≤ length piece.now)) }
    ensures bytes { WriteAppends (W.contents writer.old) (W.contents writer.new) (ok_or_failed result) piece.now }
{
    'tries: for _ in 0..TRIES {
        match writer.write(piece) {
            Ok(0) => return None,
            Ok(n) => return Some(n),
            Err(error) if error.kind() == ErrorKind::Interrupted => {}
            Err(_) => return None,
        }
    }
    None
}

/// The sink over standard error.
pub type StdErr<W> = StdSink<W>;
