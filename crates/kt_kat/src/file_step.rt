//! What is done with one file after the other.
//! The rules: docs/COMMANDS.md, "kat".
ghost use Rattle.std.specs.Prelude.{◌≡◌, ℕ, List, OnOk, IfSome};
ghost use Rattle.kt_out.specs.OutputFiles.{OutputsState};
ghost use Rattle.kt_out.specs.Reading.{SourceState};
ghost use Rattle.kt_ends.specs.Ending.{Counted};
ghost use Rattle.kt_ends.specs.Outcome.{Outcome};
ghost use Rattle.kt_ends.specs.Stops.{end_status};
ghost use Rattle.kt_ends.specs.World.{world};
ghost use Rattle.kt_loop.specs.InputFile.{IsSized, file_bytes};
ghost use Rattle.kt_loop.specs.Settling.{IsEnd};

use kt_ends::ToolStop;
use kt_out::{Inputs, Sink};
use std::alloc::Global;

/// A step that is made with one file after the other.
pub trait FileStep {
    /// What the files so far come to, as far as the next depends on it.
    ghost State: { Type 0 };

    /// What is made of the file of this number.
    ghost made: { State → ℕ → List ℕ → Outcome };

    /// What the files come to with one more.
    ghost next: { State → List ℕ → State };

    /// It stands behind files that come to this.
    ghost is_at: { State → Self → Type 0 };

    /// Makes what is to be made of a file of so many bytes, the file of this number.
    fn step<I: Inputs, K: Sink>(
        &mut self,
        alloc: Global,
        number: u32,
        name: &[u8],
        size: u64,
        inputs: &mut I,
        sink: &mut K,
    ) -> Result<(), ToolStop>
        requires sized { IsSized (I.state inputs.old).held name.now size }

        ensures ended { (state : State) → is_at state self.old → IfSome (file_bytes (I.state inputs.old).held name.now) (λ bytes. IsEnd (made state number bytes) (K.state sink.old).taken (K.state sink.new).taken (end_status result)) }
        ensures stands { OnOk result ((state : State) → is_at state self.old → IfSome (file_bytes (I.state inputs.old).held name.now) (λ bytes. is_at (next state bytes) self.new)) }
        ensures files { (I.state inputs.new).held ≡ (I.state inputs.old).held }
        ensures counted { (outputs : OutputsState) (source : SourceState) → Counted (world (I.state inputs.old) outputs source (K.state sink.old)) (world (I.state inputs.new) outputs source (K.state sink.new)) (end_status result) };
}
