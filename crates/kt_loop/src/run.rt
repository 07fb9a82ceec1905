//! The loop: reads a stream block by block, and carries out a calculation over it.
//! The rules: docs/STREAMS.md, "Tools over streams".
ghost use Rattle.std.specs.Prelude.{◌≡◌, ◌+◌, ◌<◌, ◌≤◌, ℕ, Bool, List, [], ◌++◌, length, take, drop, None, Option, IfOk, IfSome};
ghost use Rattle.kt_out.specs.InputFiles.{InputsState};
ghost use Rattle.kt_out.specs.NamedFiles.{FileMap};
ghost use Rattle.kt_out.specs.OutputFiles.{OutputsState};
ghost use Rattle.kt_out.specs.Reading.{Reads, SourceState};
ghost use Rattle.kt_out.specs.Writing.{SinkState};
ghost use Rattle.kt_stream.specs.Reader.{Represents};
ghost use Rattle.kt_ends.specs.Ending.{AtEnd, Counted};
ghost use Rattle.kt_ends.specs.Hiding.{HidesNone};
ghost use Rattle.kt_ends.specs.Outcome.{Outcome};
ghost use Rattle.kt_ends.specs.World.{world};
ghost use Rattle.kt_ends.specs.Stops.{end_status, stop_status};
ghost use Rattle.kt_ends.specs.declared.tool_stop.ToolStop.TheVariants.{ReadFault};
ghost use Rattle.kt_loop.specs.Counts.{CountsRead, StopCounts};
ghost use Rattle.kt_loop.specs.Outcome.{outcome};
ghost use Rattle.kt_loop.specs.RecordStreams.{contents_of};
ghost use Rattle.kt_loop.specs.Running.{EndsRun};
ghost use Rattle.kt_loop.specs.Settling.{Settles, StopSettles, IsEnd};

use crate::block::begin_block;
use crate::record_reader::what_is_read_stays;
use crate::spill::spill;
use crate::stage::Stage;
use crate::turn::{begin, finish, turn};
use kt_ends::{Refusal, ToolStop};
use kt_money::Bytes;
use kt_out::{Failed, Sink, Source};
use kt_stream::{Entry, RecordReader};
use std::alloc::Global;

/// More turns than a stream has bytes: each turn but the last reads one at the least.
const TURNS: u64 = 1_099_511_627_778;

/// Takes the next bytes of the source into a block behind those that it begins with, and answers how many; 0 is the end.
fn read_behind<S: Source>(source: &mut S, block: &mut [u8], kept: usize) -> Result<usize, Failed>
    requires { kept < length block.old }

    ensures moved { Reads (S.state source.old) (S.state source.new) (drop kept block.old) (drop kept block.new) result }
    ensures front { take kept block.new ≡ take kept block.old }
    ensures within { IfOk result (λ n. kept + n ≤ length block.old) }
{
    source.read(&mut block[kept..])
}

/// Reads the stream to its end, to a refusal or to a fault.
fn read_all<E: Entry, W, T: Stage<E, W>, S: Source, K: Sink>(
    alloc: Global,
    reader: &mut RecordReader<E>,
    stage: &mut T,
    beside: &mut W,
    source: &mut S,
    sink: &mut K,
    out: &mut Bytes,
) -> Result<(), ToolStop>
    requires fresh { Represents E E.form [] [] reader.old }
    requires told { reader.old.shape ≡ T.shape stage.old }
    requires ready { T.is_ready None stage.old beside.old }
    requires empty { out.old ≡ [] }

    ensures settled { (start : T.State) → T.is_at start stage.old beside.old → IfSome (S.state source.old).left (λ bytes. Settles (outcome T.calculation start (contents_of E.form (T.shape stage.old) bytes)) (K.state sink.old).taken (K.state sink.new).taken out.new result) }
    ensures counted { (others : InputsState) → CountsRead (T.inputs others beside.old) (T.inputs others beside.new) (S.state source.old).faults (S.state source.new).faults (K.state sink.old).faults (K.state sink.new).faults result }
    ensures at_end { AtEnd (S.state source.old).left (S.state source.new).left (end_status result) }
    ensures hides_none { (start : T.State) → T.is_at start stage.old beside.old → HidesNone (λ bytes. outcome T.calculation start (contents_of E.form (T.shape stage.old) bytes)) (S.state source.old) (S.state source.new) (end_status result) }
{
    what_is_read_stays::<E>();
    let mut block = Vec::new(alloc);
    if let Err(why) = begin(reader, stage, beside, sink, out) {
        return Err(why);
    }
    'turns: for _ in 0..TURNS {
        let kept = reader.pending().len();
        if let Err(_) = begin_block(&mut block, reader.pending()) {
            return Err(ToolStop::NoMemory);
        }
        let read = match read_behind(source, block.as_mut_slice(), kept) {
            Ok(read) => read,
            Err(_) => return Err(ToolStop::ReadFault),
        };
        if read == 0 {
            return finish(reader, stage, beside, sink, out);
        }
        let stop = match turn(reader, &mut block, kept + read, stage, beside, sink, out) {
            Ok(stop) => stop,
            Err(why) => return Err(why),
        };
        if let Some(stop) = stop {
            return Err(ToolStop::Refused(Refusal::Stream(stop)));
        }
    }
    unreachable!()
}

/// Writes what is pending behind a refusal: how the run ends that stopped so.
fn settle<K: Sink>(stop: ToolStop, sink: &mut K, out: &mut Bytes) -> ToolStop
    ensures end { (made : Outcome) (before : Option (List ℕ)) → StopSettles made before (K.state sink.old).taken out.old stop → IsEnd made before (K.state sink.new).taken (stop_status result) }
    ensures counted { (inputs : InputsState) (inputs_now : InputsState) (outputs : OutputsState) (source : SourceState) (source_now : SourceState) (first : SinkState) → StopCounts inputs inputs_now source.faults source_now.faults first.faults (K.state sink.old).faults stop → Counted (world inputs outputs source first) (world inputs_now outputs source_now (K.state sink.new)) (stop_status result) }
    ensures unread { stop ≡ ReadFault → result ≡ ReadFault }
{
    match stop {
        ToolStop::Refused(refusal) => match spill(sink, out) {
            Ok(()) => ToolStop::Refused(refusal),
            Err(why) => why,
        },
        other => other,
    }
}

/// Reads a stream to its end and carries out the calculation of a stage over it: writes what the stage writes at the
/// header, at each record and at the end, in blocks. A refusal of the stage or of the stream ends it, with all text
/// before it written. An error is that refusal, a fault of the source, of the sink or of what the stage asks beside the
/// stream, or want of memory: of the text some front is written then.
pub fn run_stage<E: Entry, W, T: Stage<E, W>, S: Source, K: Sink>(
    alloc: Global,
    reader: &mut RecordReader<E>,
    stage: &mut T,
    beside: &mut W,
    source: &mut S,
    sink: &mut K,
) -> Result<(), ToolStop>
    requires fresh { Represents E E.form [] [] reader.old }
    requires told { reader.old.shape ≡ T.shape stage.old }
    requires ready { T.is_ready None stage.old beside.old }

    ensures ended { (asks : Bool) (made : FileMap → List ℕ → Outcome) (others : InputsState) (outputs : OutputsState) → EndsRun T.calculation (contents_of E.form (T.shape stage.old)) (λ state. T.is_at state stage.old beside.old) asks made (world (T.inputs others beside.old) outputs (S.state source.old) (K.state sink.old)) (world (T.inputs others beside.new) outputs (S.state source.new) (K.state sink.new)) (end_status result) }
{
    let mut out = Bytes::new(alloc);
    match read_all(alloc, reader, stage, beside, source, sink, &mut out) {
        Ok(()) => spill(sink, &mut out),
        Err(stop) => Err(settle(stop, sink, &mut out)),
    }
}
