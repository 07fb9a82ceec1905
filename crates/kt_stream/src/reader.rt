//! A reader of the records of a stream, which is fed pieces of any size.
//! The rules: docs/STREAMS.md, "Readers".
ghost use Rattle.std.specs.Prelude.{◌≡◌, ◌+◌, ◌-◌, ◌≤◌, ◌<◌, [], ◌∷◌, ◌++◌, None, Some, length, take, drop, IfOk, OnOk, OnErr, IfSome, IfNone};
ghost use Rattle.kt_stream.specs.Stream.{AreBytes, fault_at, stream_limit};
ghost use Rattle.kt_stream.specs.Reader.{rest_end};

use crate::entry::Placed;
use crate::header::{header_before, header_length, header_of};
use crate::kind::{Head, Shape};
use crate::read::Read;
use crate::stop::{StreamStop, of_header, of_record};
use crate::unit::Entry;
use std::alloc::{AllocError, Global};
use std::marker::Model;
use std::mem::swap;

/// The most bytes that a stream may have.
const STREAM_LIMIT: u64 = 1_099_511_627_776;

/// What a reader comes to when it is asked for the next record.
#[derive(Clone, Copy)]
pub enum Next {
    /// A record was read.
    Record,
    /// More bytes are needed.
    Rest,
    /// This refuses the stream.
    Stop(StreamStop),
}

/// How bytes that end here are cut off: inside a header, or inside a record.
fn cut_at(head: Option<Head>, pending: &[u8], byte: u64) -> Option<StreamStop>
    ensures value { result ≡ fault_at byte (rest_end head pending.now) }
{
    if head.is_some() && pending.is_empty() {
        None
    } else {
        Some(StreamStop::Cut { byte })
    }
}

/// The bytes as far as the limit allows, where the first of them is this byte of the stream.
fn within_limit(bytes: &[u8], start: u64) -> &[u8]
    requires { start ≤ stream_limit }
    ensures value { result.now ≡ take (stream_limit - start) bytes.now }
    ensures bytes { AreBytes result.now }
{
    let room = (STREAM_LIMIT - start) as usize;
    if bytes.len() <= room {
        bytes
    } else {
        &bytes[..room]
    }
}

/// A reader of the records of one kind, which says the same however the stream is cut into pieces. It holds
/// a block with the bytes of the records that were read since the last piece came and those that were not read yet, and
/// the record that was read last.
#[derive(Drop)]
pub struct RecordReader<E: Entry> {
    shape: Shape,
    head: Option<Head>,
    row: Placed<E>,
    stop: Option<StreamStop>,
    start: u64,
    block: Vec<u8>,
    from: usize,
    used: usize,
    end: usize,
}

impl<E: Entry> Model for RecordReader<E> {
    ghost use Rattle.std.specs.Prelude.{◌≤◌, ◌-◌, length, take, drop};
    ghost use Rattle.kt_stream.specs.Reader.{Reading, IsReader};

    ghost Value = { Reading E };

    ghost view = { λ r. record { shape = r.shape; head = r.head; row = r.row; passed = take (r.used - r.from) (drop r.from (take r.end r.block.items)); stop = r.stop; start = r.start; pending = drop r.used (take r.end r.block.items) } };

    ghost invariant = { λ r. (r.from ≤ r.used) × (r.used ≤ r.end) × (r.end ≤ length r.block.items) × IsReader E (record { shape = r.shape; head = r.head; row = r.row; passed = take (r.used - r.from) (drop r.from (take r.end r.block.items)); stop = r.stop; start = r.start; pending = drop r.used (take r.end r.block.items) }) };
}

impl<E: Entry> RecordReader<E> {
    ghost use Rattle.kt_stream.specs.declared.kind.Head.{Head};
    ghost use Rattle.kt_stream.specs.Header.{IsHead, first_head};
    ghost use Rattle.kt_stream.specs.Reader.{Represents, Extends, IsFilled, piece_in, Advances, Stays, IsRested, HoldsNone, Finishes, held};

    /// A reader that is told so much of its stream and was given no bytes. Asks for no memory.
    pub(crate) fn of_shape(alloc: Global, shape: Shape) -> Self
        ensures value { Represents E E.form [] [] result }
        ensures shape { result.shape ≡ shape }
        ensures head { result.head ≡ first_head shape.kind }
        ensures rests { IsRested E E.form result }
    {
        E::laws();
        RecordReader {
            shape,
            head: header_before(shape.kind),
            row: Placed {
                at: 0,
                entry: E::blank(alloc),
            },
            stop: None,
            start: 0,
            block: Vec::new(alloc),
            from: 0,
            used: 0,
            end: 0,
        }
    }

    /// The bytes that were not read yet.
    pub fn pending(&self) -> &[u8]
        ensures value { result.now ≡ self.now.pending }
    {
        &self.block.as_slice()[..self.end][self.used..]
    }

    /// Takes the next piece of the stream, and reads the header once it is whole: the bytes of a block up to a place,
    /// behind those that were not read yet, with which it begins. Another block is given for it. Behind a refusal a
    /// piece is let go.
    pub fn feed(&mut self, block: &mut Vec<u8>, upto: usize)
        requires { IsFilled self.old.pending block.old.items upto }

        ensures fed { Extends E E.form self.old (piece_in self.old.pending block.old.items upto) self.new }
        ensures shape { self.new.shape ≡ self.old.shape }
        ensures passed { self.new.passed ≡ [] }
    {
        if let Some(_stop) = self.stop {
            self.from = self.used;
            return;
        }
        swap(&mut self.block, block);
        self.from = 0;
        self.used = 0;
        self.end = upto;
        if let Some(_head) = self.head {
            return;
        }
        match header_of(
            self.shape.kind,
            within_limit(&self.block.as_slice()[..upto], self.start),
        ) {
            Read::Short => {}
            Read::Wrong(fault) => self.stop = Some(of_header(fault)),
            Read::Got(head) => {
                self.head = Some(head);
                self.used = header_length(self.shape.kind);
                self.from = self.used;
                self.start += self.used as u64;
            }
        }
    }

    /// Reads the next record, if it is whole. A wrong header or record and a stream above 2^40 bytes are refused, once
    /// the records before are read. An error is want of memory; the record is not read then, and the reader stands where it
    /// stood, but the record that was read last is lost.
    pub fn advance(&mut self) -> Result<Next, AllocError>
        ensures value { IfOk result (λ next. Advances E E.form E.IsGood self.old next self.new) }

        ensures kept { OnErr result (Stays E E.form self.old self.new) }
    {
        E::laws();
        if let Some(stop) = self.stop {
            return Ok(Next::Stop(stop));
        }
        let Some(head) = self.head else {
            return Ok(self.end_of_piece());
        };
        let pending = &self.block.as_slice()[..self.end][self.used..];
        let bytes = within_limit(pending, self.start);
        match self
            .row
            .entry
            .read_into(self.shape, head.samples, bytes, self.start)?
        {
            Read::Got(size) => {
                self.row.at = self.start;
                self.start += size as u64;
                self.used += size;
                Ok(Next::Record)
            }
            Read::Wrong(misfit) => {
                let stop = of_record(misfit);
                self.stop = Some(stop);
                Ok(Next::Stop(stop))
            }
            Read::Short => Ok(self.end_of_piece()),
        }
    }

    /// What comes behind the last whole record: more bytes, or the stream is refused for its length.
    fn end_of_piece(&mut self) -> Next
        requires running { self.old.stop ≡ None }
        requires none { HoldsNone E E.form self.old }
        ensures { Advances E E.form E.IsGood self.old result self.new }
    {
        let pending = &self.block.as_slice()[..self.end][self.used..];
        if pending.len() as u64 <= STREAM_LIMIT - self.start {
            return Next::Rest;
        }
        self.stop = Some(StreamStop::TooLong);
        Next::Stop(StreamStop::TooLong)
    }

    /// The record that was read last; none of the stream's, where none was read yet.
    #[inline]
    pub fn record(&self) -> &Placed<E>
        ensures value { result.now ≡ self.now.row }
    {
        &self.row
    }

    /// The bytes in which the records stand that were read since the last piece came, one behind the other.
    pub fn passed(&self) -> &[u8]
        ensures value { result.now ≡ self.now.passed }
    {
        &self.block.as_slice()[..self.end][self.from..self.used]
    }

    /// The header, once it is whole and good. Without one no record is held.
    pub fn head(&self) -> Option<Head>
        ensures value { result ≡ self.now.head }
        ensures fits { IfSome result (λ head. IsHead self.now.shape.kind head) }
        ensures none { IfNone result (held E.form self.now ≡ []) }
    {
        self.head
    }

    /// Says that the stream ends here, once all whole records were read: Ok exactly where the bytes are a whole stream
    /// of the kind. An error is what refuses the stream: what `advance` has found, or `Cut` where it ends inside its
    /// header or a record.
    pub fn finish(&self) -> Result<(), StreamStop>
        requires { IsRested E E.form self.now }
        ensures exact { Finishes E E.form self.now result }
    {
        if let Some(stop) = self.stop {
            return Err(stop);
        }
        let pending = &self.block.as_slice()[..self.end][self.used..];
        match cut_at(self.head, pending, self.start + pending.len() as u64) {
            None => Ok(()),
            Some(stop) => Err(stop),
        }
    }
}
