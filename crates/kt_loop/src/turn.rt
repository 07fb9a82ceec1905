//! The turns of the loop: what each piece of the stream brings.
//! The rules: docs/STREAMS.md, "Tools over streams".
ghost use Rattle.std.specs.Prelude.{◌≡◌, ℕ, List, [], ◌++◌, Option, IfOk, OnOk};
ghost use Rattle.kt_out.specs.InputFiles.{InputsState};
ghost use Rattle.kt_stream.specs.Reader.{IsFilled, IsRested, Represents, piece_in};
ghost use Rattle.kt_stream.specs.declared.kind.Shape.{Shape};
ghost use Rattle.kt_ends.specs.declared.status.Refusal.{Refusal};
ghost use Rattle.kt_loop.specs.Calculation.{started};
ghost use Rattle.kt_loop.specs.Counts.{Counts};
ghost use Rattle.kt_loop.specs.Outcome.{outcome};
ghost use Rattle.kt_loop.specs.Reading.{IsJudged, StandsBehind, Stood};
ghost use Rattle.kt_loop.specs.RecordStreams.{contents_of, course_over};
ghost use Rattle.kt_loop.specs.Settling.{Settles};
ghost use Rattle.kt_loop.specs.Steps.{Stands, Comes};

use crate::carry::carry_on;
use crate::record_reader::what_is_read_stays;
use crate::stage::Stage;
use kt_ends::{Refusal, ToolStop};
use kt_money::Bytes;
use kt_out::Sink;
use kt_stream::{Entry, RecordReader, StreamStop};

/// Begins: opens the stage where a stream has its header before its first byte.
pub(crate) fn begin<E: Entry, W, T: Stage<E, W>, K: Sink>(
    reader: &mut RecordReader<E>,
    stage: &mut T,
    beside: &mut W,
    sink: &mut K,
    out: &mut Bytes,
) -> Result<(), ToolStop>
    requires fresh { Represents E E.form [] [] reader.old }
    requires told { reader.old.shape ≡ T.shape stage.old }
    requires ready { T.is_ready None stage.old beside.old }

    ensures stands { OnOk result (StandsBehind E E.form (T.shape stage.old) [] reader.new) }
    ensures course { (before : Option (List ℕ)) (start : T.State) → Stands {R = Refusal} (λ state. T.is_at state stage.old beside.old) before (K.state sink.old).taken out.old (started start) → Comes (λ state. T.is_at state stage.new beside.new) before (K.state sink.new).taken out.new (course_over T.calculation E.form (T.shape stage.old) start []) result }
    ensures rests { OnOk result (IsRested E E.form reader.new) }
    ensures ready { OnOk result (T.is_ready reader.new.head stage.new beside.new) }
    ensures shape { T.shape stage.new ≡ T.shape stage.old }
    ensures counted { (others : InputsState) → Counts (T.inputs others beside.old) (T.inputs others beside.new) (K.state sink.old).faults (K.state sink.new).faults result }
{
    match carry_on(false, reader, stage, beside, sink, out) {
        Ok(_) => Ok(()),
        Err(why) => Err(why),
    }
}

/// Feeds a piece of the stream, which stands in a block behind what was not read yet, and carries on with all that is whole by it: what refuses the stream, if anything does.
pub(crate) fn turn<E: Entry, W, T: Stage<E, W>, K: Sink>(
    reader: &mut RecordReader<E>,
    block: &mut Vec<u8>,
    upto: usize,
    stage: &mut T,
    beside: &mut W,
    sink: &mut K,
    out: &mut Bytes,
) -> Result<Option<StreamStop>, ToolStop>
    requires filled { IsFilled reader.old.pending block.old.items upto }
    requires stood { Stood E E.form reader.old }
    requires told { reader.old.shape ≡ T.shape stage.old }
    requires ready { T.is_ready reader.old.head stage.old beside.old }

    ensures stands { IfOk result (λ stop. (shape : Shape) (fed : List ℕ) → StandsBehind E E.form shape fed reader.old → StandsBehind E E.form shape (fed ++ piece_in reader.old.pending block.old.items upto) reader.new × IsJudged E.form shape (fed ++ piece_in reader.old.pending block.old.items upto) stop) }
    ensures course { (shape : Shape) (fed : List ℕ) (before : Option (List ℕ)) (start : T.State) → StandsBehind E E.form shape fed reader.old → Stands (λ state. T.is_at state stage.old beside.old) before (K.state sink.old).taken out.old (course_over T.calculation E.form shape start fed) → Comes (λ state. T.is_at state stage.new beside.new) before (K.state sink.new).taken out.new (course_over T.calculation E.form shape start (fed ++ piece_in reader.old.pending block.old.items upto)) result }
    ensures rests { OnOk result (IsRested E E.form reader.new) }
    ensures ready { OnOk result (T.is_ready reader.new.head stage.new beside.new) }
    ensures shape { T.shape stage.new ≡ T.shape stage.old }
    ensures counted { (others : InputsState) → Counts (T.inputs others beside.old) (T.inputs others beside.new) (K.state sink.old).faults (K.state sink.new).faults result }
{
    what_is_read_stays::<E>();
    let was_open = reader.head().is_some();
    reader.feed(block, upto);
    carry_on(was_open, reader, stage, beside, sink, out)
}

/// Ends where no byte is left: refuses a stream that is cut off, or appends what is written at the end.
pub(crate) fn finish<E: Entry, W, T: Stage<E, W>, K: Sink>(
    reader: &RecordReader<E>,
    stage: &mut T,
    beside: &mut W,
    sink: &K,
    out: &mut Bytes,
) -> Result<(), ToolStop>
    requires told { reader.now.shape ≡ T.shape stage.old }
    requires rests { IsRested E E.form reader.now }
    requires ready { T.is_ready reader.now.head stage.old beside.old }

    ensures course { (shape : Shape) (fed : List ℕ) (before : Option (List ℕ)) (start : T.State) → StandsBehind E E.form shape fed reader.now → Stands (λ state. T.is_at state stage.old beside.old) before (K.state sink.now).taken out.old (course_over T.calculation E.form shape start fed) → Settles (outcome T.calculation start (contents_of E.form shape fed)) before (K.state sink.now).taken out.new result }
    ensures counted { (others : InputsState) → Counts (T.inputs others beside.old) (T.inputs others beside.new) (K.state sink.now).faults (K.state sink.now).faults result }
{
    if let Err(stop) = reader.finish() {
        return Err(ToolStop::Refused(Refusal::Stream(stop)));
    }
    let Some(head) = reader.head() else {
        return Ok(());
    };
    stage.end(beside, head, out)
}
