//! The streams in files as one stream.
//! The rules: docs/COMMANDS.md, "kat".
ghost use Rattle.std.specs.Prelude.{◌≡◌, ◌+◌, ◌<◌, ◌≤◌, ◌++◌, ℕ, List, [], None, Option, length, take, drop, IfOk, OnOk, IfSome};
ghost use Rattle.kt_out.specs.InputFiles.{AfterRead, InputsState};
ghost use Rattle.kt_out.specs.OutputFiles.{OutputsState};
ghost use Rattle.kt_out.specs.Reading.{GivesKnown, SourceState};
ghost use Rattle.kt_stream.specs.Reader.{Represents, IsFilled, IsRested, piece_in};
ghost use Rattle.kt_stream.specs.Stream.{stream_of};
ghost use Rattle.kt_ends.specs.Ending.{Counted};
ghost use Rattle.kt_ends.specs.Stops.{end_status};
ghost use Rattle.kt_ends.specs.World.{world};
ghost use Rattle.kt_loop.specs.InputFile.{IsSized, file_bytes, left_from};
ghost use Rattle.kt_loop.specs.RecordStreams.{contents_of};
ghost use Rattle.kt_loop.specs.Settling.{IsEnd};
ghost use Rattle.kt_kat.specs.Copied.{Copies, IsCopied, OpensFile};
ghost use Rattle.kt_kat.specs.Joining.{joined, or_head};

use crate::copied::{copy_records, open};
use crate::file_step::FileStep;
use crate::kinds::JoinedKind;
use crate::stops::{file_stop, unread_stop};
use kt_ends::ToolStop;
use kt_loop::{begin_block, read_piece};
use kt_out::{Fault, Inputs, Sink};
use kt_stream::laws::{no_header_means_no_records, what_is_read_stays};
use kt_stream::{Head, RecordReader};
use std::alloc::Global;

/// The header of the first file, where there was one, else that of this file.
fn first_of(first: Option<Head>, head: Option<Head>) -> Option<Head>
    ensures { result ≡ or_head first head }
{
    match first {
        Some(first) => Some(first),
        None => head,
    }
}

/// Reads the next bytes of a file into a block behind those that it begins with, from a place below its size on.
fn read_behind<I: Inputs>(
    inputs: &mut I,
    name: &[u8],
    size: u64,
    at: u64,
    block: &mut [u8],
    kept: usize,
) -> Result<usize, Fault>
    requires room { kept < length block.old }
    requires within { at < size }
    requires sized { IsSized (I.state inputs.old).held name.now size }

    ensures moved { IfOk result (λ n. GivesKnown (left_from (file_bytes (I.state inputs.old).held name.now) at) (left_from (file_bytes (I.state inputs.old).held name.now) (at + n)) (drop kept block.old) (drop kept block.new) n) }
    ensures front { take kept block.new ≡ take kept block.old }
    ensures within { IfOk result (λ n. (0 < n) × (kept + n ≤ length block.old) × (at + n ≤ size)) }
    ensures counts { AfterRead (I.state inputs.old) (I.state inputs.new) result }
{
    read_piece(inputs, name, size, at, &mut block[kept..])
}

/// Writes the streams of files as one stream of their kind.
#[derive(Drop)]
pub(crate) struct StreamFiles<M> {
    kind: M,
    first: Option<Head>,
}

impl<M> StreamFiles<M> {
    /// No file was read.
    pub(crate) fn new(kind: M) -> Self
        ensures { result.first ≡ None }
    {
        StreamFiles { kind, first: None }
    }
}

impl<M: JoinedKind> StreamFiles<M> {
    /// Writes or compares the header of the file of this number, where it is whole now and was not before.
    fn open<K: Sink>(
        &self,
        alloc: Global,
        number: u32,
        was_open: bool,
        head: Option<Head>,
        sink: &mut K,
    ) -> Result<(), ToolStop>
        ensures { OpensFile M.shape.kind self.now.first number was_open head (K.state sink.old) (K.state sink.new) result }
    {
        if was_open {
            return Ok(());
        }
        let Some(head) = head else {
            return Ok(());
        };
        open(alloc, self.kind.kind(), self.first, number, head, sink)
    }

    /// Takes a piece of the file of this number, which stands in a block behind what was not read yet, and writes what is
    /// whole by it.
    fn turn<K: Sink>(
        &self,
        alloc: Global,
        number: u32,
        reader: &mut RecordReader<M::Record>,
        block: &mut Vec<u8>,
        upto: usize,
        sink: &mut K,
    ) -> Result<(), ToolStop>
        requires { IsFilled reader.old.pending block.old.items upto }

        ensures copied { (fed : List ℕ) (before : Option (List ℕ)) → IsCopied M.Record.form M.shape self.now.first fed reader.old before (K.state sink.old).taken → Copies M.Record.form M.shape self.now.first number (fed ++ piece_in reader.old.pending block.old.items upto) reader.new before (K.state sink.new).taken result }
        ensures rests { OnOk result (IsRested M.Record M.Record.form reader.new) }
        ensures counted { (inputs : InputsState) (outputs : OutputsState) (source : SourceState) → Counted (world inputs outputs source (K.state sink.old)) (world inputs outputs source (K.state sink.new)) (end_status result) }
    {
        what_is_read_stays::<M::Record>();
        no_header_means_no_records::<M::Record>();
        let was_open = reader.head().is_some();
        reader.feed(block, upto);
        if let Err(stop) = self.open(alloc, number, was_open, reader.head(), sink) {
            return Err(stop);
        }
        copy_records(number, reader, sink)
    }

    /// Writes the file of this number, of so many bytes, block by block.
    fn copy<I: Inputs, K: Sink>(
        &self,
        alloc: Global,
        number: u32,
        reader: &mut RecordReader<M::Record>,
        name: &[u8],
        size: u64,
        inputs: &mut I,
        sink: &mut K,
    ) -> Result<(), ToolStop>
        requires fresh { Represents M.Record M.Record.form [] [] reader.old }
        requires shape { reader.old.shape ≡ M.shape }
        requires headless { reader.old.head ≡ None }
        requires rests { IsRested M.Record M.Record.form reader.old }
        requires sized { IsSized (I.state inputs.old).held name.now size }

        ensures ended { IfSome (file_bytes (I.state inputs.old).held name.now) (λ bytes. IsEnd (joined M.Record.form M.shape.kind self.now.first number (contents_of M.Record.form M.shape bytes)) (K.state sink.old).taken (K.state sink.new).taken (end_status result)) }
        ensures head { OnOk result (IfSome (file_bytes (I.state inputs.old).held name.now) (λ bytes. reader.new.head ≡ (stream_of M.Record.form M.shape bytes).head)) }
        ensures files { (I.state inputs.new).held ≡ (I.state inputs.old).held }
        ensures counted { (outputs : OutputsState) (source : SourceState) → Counted (world (I.state inputs.old) outputs source (K.state sink.old)) (world (I.state inputs.new) outputs source (K.state sink.new)) (end_status result) }
    {
        what_is_read_stays::<M::Record>();
        let mut block = Vec::new(alloc);
        let mut at = 0;
        'pieces: while at < size {
            let kept = reader.pending().len();
            if let Err(_) = begin_block(&mut block, reader.pending()) {
                return Err(ToolStop::NoMemory);
            }
            let read = match read_behind(inputs, name, size, at, block.as_mut_slice(), kept) {
                Ok(read) => read,
                Err(fault) => return Err(unread_stop(fault)),
            };
            if let Err(stop) = self.turn(alloc, number, reader, &mut block, kept + read, sink) {
                return Err(stop);
            }
            at += read as u64;
        }
        match reader.finish() {
            Ok(()) => Ok(()),
            Err(stop) => Err(file_stop(number, stop)),
        }
    }
}

impl<M: JoinedKind> FileStep for StreamFiles<M> {
    ghost use Rattle.std.specs.Prelude.{◌≡◌, Option};
    ghost use Rattle.kt_stream.specs.declared.kind.Head.{Head};
    ghost use Rattle.kt_loop.specs.RecordStreams.{contents_of};
    ghost use Rattle.kt_kat.specs.Joining.{joined, or_head};

    ghost State = { Option Head };

    ghost made = { λ first number bytes. joined M.Record.form M.shape.kind first number (contents_of M.Record.form M.shape bytes) };

    ghost next = { λ first bytes. or_head first (contents_of M.Record.form M.shape bytes).head };

    ghost is_at = { λ first files. files.first ≡ first };

    fn step<I: Inputs, K: Sink>(
        &mut self,
        alloc: Global,
        number: u32,
        name: &[u8],
        size: u64,
        inputs: &mut I,
        sink: &mut K,
    ) -> Result<(), ToolStop> {
        let mut reader = self.kind.reader(alloc);
        if let Err(stop) = self.copy(alloc, number, &mut reader, name, size, inputs, sink) {
            return Err(stop);
        }
        self.first = first_of(self.first, reader.head());
        Ok(())
    }
}
