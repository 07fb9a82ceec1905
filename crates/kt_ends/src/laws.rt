//! What the end of a run says of runs in which nothing failed: theorems, as functions with an empty body.
//! The rules: docs/REFUSALS.md, "Statuses".
ghost use Rattle.std.specs.Prelude.{ℕ, List, Result};
ghost use Rattle.kt_out.specs.NamedFiles.{FileMap};
ghost use Rattle.kt_out.specs.Writing.{SinkState};
ghost use Rattle.kt_ends.specs.Clear.{IsComplete};
ghost use Rattle.kt_ends.specs.Outcome.{Outcome};
ghost use Rattle.kt_ends.specs.World.{World, Uses};
ghost use Rattle.kt_ends.specs.declared.status.Status.{Status};
ghost use Rattle.kt_words.specs.declared.command.Command.{Command};
ghost use Rattle.kt_words.specs.declared.stop.WordStop.{WordStop};

/// Where no call of the objects outside failed, a run that ends as `run` says is done where nothing is refused, and answers the first
/// refusal where something is, of the words or of the input; or memory is wanting.
pub fn a_clear_run_is_complete()
    ensures complete { (read : Result Command WordStop) (uses : Uses) (made : FileMap → List ℕ → Outcome) (before after : World) (err err_now : SinkState) (answer : Status) → IsComplete read uses made before after err err_now answer }
{}
