//! A stage: what a tool over a stream does at the header, at each record and at the end.
//! The rules: docs/STREAMS.md, "Tools over streams".
ghost use Rattle.std.specs.Prelude.{◌≡◌, ℕ, List, Option, None, Some, OnOk};
ghost use Rattle.kt_out.specs.InputFiles.{InputsState};
ghost use Rattle.kt_stream.specs.Header.{IsHead};
ghost use Rattle.kt_stream.specs.Reader.{IsPlaced};
ghost use Rattle.kt_stream.specs.declared.kind.Head.{Head};
ghost use Rattle.kt_stream.specs.declared.kind.Shape.{Shape};
ghost use Rattle.kt_ends.specs.declared.status.Refusal.{Refusal};
ghost use Rattle.kt_loop.specs.Calculation.{Calculation};
ghost use Rattle.kt_loop.specs.Counts.{Consults};
ghost use Rattle.kt_loop.specs.Steps.{StepsBy, EndsWith};

use kt_ends::ToolStop;
use kt_money::Bytes;
use kt_stream::{Entry, Head, Placed};

/// A stage over streams of these records. `W` is what it asks beside the stream: the input files, or `()` where it asks
/// nothing.
pub trait Stage<E: Entry, W> {
    /// What the stage remembers between two steps, and what it was made with.
    ghost State: { Type 0 };

    /// What it calculates.
    ghost calculation: { Calculation Head E State Refusal };

    /// It stands at this state. Where files are asked that are not known it may stand at none.
    ghost is_at: { State → Self → W → Type 0 };

    /// It is ready for a header, or for the records behind this one, with what it asks beside.
    ghost is_ready: { Option Head → Self → W → Type 0 };

    /// The shape of the streams that it stands on. No step changes it.
    ghost shape: { Self → Shape };

    /// The input files beside a call: those that it asks, or others, which it leaves as they are.
    ghost inputs: { InputsState → W → InputsState };

    /// Appends what is written at the header.
    fn open(&mut self, beside: &mut W, head: Head, out: &mut Bytes) -> Result<(), ToolStop>
        requires header { IsHead (shape self.old).kind head }
        requires ready { is_ready None self.old beside.old }

        ensures step { (state : State) → is_at state self.old beside.old → StepsBy (calculation.opens head state) (λ next. is_at next self.new beside.new) out.old out.new result }
        ensures ready { OnOk result (is_ready (Some head) self.new beside.new) }
        ensures shape { shape self.new ≡ shape self.old }
        ensures counted { (others : InputsState) → Consults (inputs others beside.old) (inputs others beside.new) result };

    /// Appends what is written at a record.
    fn take(
        &mut self,
        beside: &mut W,
        head: Head,
        placed: &Placed<E>,
        out: &mut Bytes,
    ) -> Result<(), ToolStop>
        requires header { IsHead (shape self.old).kind head }
        requires good { IsPlaced E E.form E.IsGood (shape self.old) head placed.now }
        requires ready { is_ready (Some head) self.old beside.old }

        ensures step { (state : State) → is_at state self.old beside.old → StepsBy (calculation.takes head state placed.now) (λ next. is_at next self.new beside.new) out.old out.new result }
        ensures ready { OnOk result (is_ready (Some head) self.new beside.new) }
        ensures shape { shape self.new ≡ shape self.old }
        ensures counted { (others : InputsState) → Consults (inputs others beside.old) (inputs others beside.new) result };

    /// Appends what is written at the end of the stream.
    fn end(&mut self, beside: &mut W, head: Head, out: &mut Bytes) -> Result<(), ToolStop>
        requires header { IsHead (shape self.old).kind head }
        requires ready { is_ready (Some head) self.old beside.old }

        ensures end { (state : State) → is_at state self.old beside.old → EndsWith (calculation.ends head state) out.old out.new result }
        ensures counted { (others : InputsState) → Consults (inputs others beside.old) (inputs others beside.new) result };
}
