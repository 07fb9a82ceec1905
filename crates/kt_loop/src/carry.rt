//! Carrying a calculation on with the records that a reader reads.
//! The rules: docs/STREAMS.md, "Tools over streams".
ghost use Rattle.std.specs.Prelude.{◌≡◌, ℕ, List, Option, Some, None, IfOk, OnOk};
ghost use Rattle.kt_out.specs.InputFiles.{InputsState};
ghost use Rattle.kt_stream.specs.Header.{IsHead};
ghost use Rattle.kt_stream.specs.Reader.{IsPlaced, held};
ghost use Rattle.kt_ends.specs.declared.status.Refusal.{Refusal};
ghost use Rattle.kt_loop.specs.Calculation.{Course, opened, took, took_all};
ghost use Rattle.kt_loop.specs.Carrying.{carried, header_if};
ghost use Rattle.kt_loop.specs.Counts.{Counts};
ghost use Rattle.kt_loop.specs.Reading.{ReadsAll};
ghost use Rattle.kt_loop.specs.Steps.{Stands, Comes};

use crate::record_reader::read_records;
use crate::spill::spill;
use crate::stage::Stage;
use kt_ends::ToolStop;
use kt_money::Bytes;
use kt_out::Sink;
use kt_stream::{Entry, Head, Next, Placed, RecordReader, StreamStop};

/// Where so many bytes are pending they are written, so that the memory is bounded whatever the stream.
const SPILL: usize = 65_536;

/// Opens a stage.
fn open_stage<E: Entry, W, T: Stage<E, W>, K: Sink>(
    stage: &mut T,
    beside: &mut W,
    head: Head,
    sink: &K,
    out: &mut Bytes,
) -> Result<(), ToolStop>
    requires header { IsHead (T.shape stage.old).kind head }
    requires ready { T.is_ready None stage.old beside.old }

    ensures course { (before : Option (List ℕ)) (course : Course T.State Refusal) → Stands (λ state. T.is_at state stage.old beside.old) before (K.state sink.now).taken out.old course → Comes (λ state. T.is_at state stage.new beside.new) before (K.state sink.now).taken out.new (opened T.calculation head course) result }
    ensures ready { OnOk result (T.is_ready (Some head) stage.new beside.new) }
    ensures shape { T.shape stage.new ≡ T.shape stage.old }
    ensures counted { (others : InputsState) → Counts (T.inputs others beside.old) (T.inputs others beside.new) (K.state sink.now).faults (K.state sink.now).faults result }
{
    stage.open(beside, head, out)
}

/// Takes one record, and writes what is pending where that is much.
fn take_one<E: Entry, W, T: Stage<E, W>, K: Sink>(
    stage: &mut T,
    beside: &mut W,
    head: Head,
    placed: &Placed<E>,
    sink: &mut K,
    out: &mut Bytes,
) -> Result<(), ToolStop>
    requires header { IsHead (T.shape stage.old).kind head }
    requires good { IsPlaced E E.form E.IsGood (T.shape stage.old) head placed.now }
    requires ready { T.is_ready (Some head) stage.old beside.old }

    ensures course { (before : Option (List ℕ)) (course : Course T.State Refusal) → Stands (λ state. T.is_at state stage.old beside.old) before (K.state sink.old).taken out.old course → Comes (λ state. T.is_at state stage.new beside.new) before (K.state sink.new).taken out.new (took T.calculation head course placed.now) result }
    ensures ready { OnOk result (T.is_ready (Some head) stage.new beside.new) }
    ensures shape { T.shape stage.new ≡ T.shape stage.old }
    ensures counted { (others : InputsState) → Counts (T.inputs others beside.old) (T.inputs others beside.new) (K.state sink.old).faults (K.state sink.new).faults result }
{
    if let Err(stop) = stage.take(beside, head, placed, out) {
        return Err(stop);
    }
    if out.len() < SPILL {
        return Ok(());
    }
    spill(sink, out)
}

/// Takes all records that are still to be read, one after the other: what refuses the stream behind them, if anything does.
fn take_held<E: Entry, W, T: Stage<E, W>, K: Sink>(
    reader: &mut RecordReader<E>,
    stage: &mut T,
    beside: &mut W,
    head: Head,
    sink: &mut K,
    out: &mut Bytes,
) -> Result<Option<StreamStop>, ToolStop>
    requires header { IsHead (T.shape stage.old).kind head }
    requires told { reader.old.shape ≡ T.shape stage.old }
    requires known { reader.old.head ≡ Some head }
    requires ready { T.is_ready (Some head) stage.old beside.old }

    ensures course { (before : Option (List ℕ)) (course : Course T.State Refusal) → Stands (λ state. T.is_at state stage.old beside.old) before (K.state sink.old).taken out.old course → Comes (λ state. T.is_at state stage.new beside.new) before (K.state sink.new).taken out.new (took_all T.calculation head course (held E.form reader.old)) result }
    ensures read { IfOk result (λ stop. ReadsAll E.form reader.old stop reader.new) }
    ensures ready { OnOk result (T.is_ready (Some head) stage.new beside.new) }
    ensures shape { T.shape stage.new ≡ T.shape stage.old }
    ensures counted { (others : InputsState) → Counts (T.inputs others beside.old) (T.inputs others beside.new) (K.state sink.old).faults (K.state sink.new).faults result }
{
    'records: loop {
        let next = match reader.advance() {
            Ok(next) => next,
            Err(_) => return Err(ToolStop::NoMemory),
        };
        match next {
            Next::Record => {
                if let Err(stop) = take_one(stage, beside, head, reader.record(), sink, out) {
                    return Err(stop);
                }
            }
            Next::Rest => return Ok(None),
            Next::Stop(stop) => return Ok(Some(stop)),
        }
    }
}

/// Carries on with all that the reader reads: opens the stage where the header is there and was not before, and takes
/// the records. Answers what refuses the stream behind them, if anything does.
pub(crate) fn carry_on<E: Entry, W, T: Stage<E, W>, K: Sink>(
    was_open: bool,
    reader: &mut RecordReader<E>,
    stage: &mut T,
    beside: &mut W,
    sink: &mut K,
    out: &mut Bytes,
) -> Result<Option<StreamStop>, ToolStop>
    requires told { reader.old.shape ≡ T.shape stage.old }
    requires ready { T.is_ready (header_if was_open reader.old.head) stage.old beside.old }

    ensures course { (before : Option (List ℕ)) (course : Course T.State Refusal) → Stands (λ state. T.is_at state stage.old beside.old) before (K.state sink.old).taken out.old course → Comes (λ state. T.is_at state stage.new beside.new) before (K.state sink.new).taken out.new (carried T.calculation was_open reader.old.head course (held E.form reader.old)) result }
    ensures read { IfOk result (λ stop. ReadsAll E.form reader.old stop reader.new) }
    ensures ready { OnOk result (T.is_ready reader.new.head stage.new beside.new) }
    ensures shape { T.shape stage.new ≡ T.shape stage.old }
    ensures counted { (others : InputsState) → Counts (T.inputs others beside.old) (T.inputs others beside.new) (K.state sink.old).faults (K.state sink.new).faults result }
{
    let Some(head) = reader.head() else {
        return match read_records(reader) {
            Ok(stop) => Ok(stop),
            Err(_) => Err(ToolStop::NoMemory),
        };
    };
    if was_open {
        return take_held(reader, stage, beside, head, sink, out);
    }
    if let Err(stop) = open_stage(stage, beside, head, sink, out) {
        return Err(stop);
    }
    take_held(reader, stage, beside, head, sink, out)
}
