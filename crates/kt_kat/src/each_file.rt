//! One file after the other.
//! The rules: docs/COMMANDS.md, "kat".
ghost use Rattle.std.specs.Prelude.{◌≡◌, ◌+◌, ◌≤◌, ◌<◌, ℕ, List, length, drop, Ok, IfSome};
ghost use Rattle.kt_out.specs.OutputFiles.{OutputsState};
ghost use Rattle.kt_out.specs.Reading.{SourceState};
ghost use Rattle.kt_ends.specs.Ending.{Counted};
ghost use Rattle.kt_ends.specs.Stops.{end_status};
ghost use Rattle.kt_ends.specs.World.{world};
ghost use Rattle.kt_loop.specs.Settling.{IsEnd};
ghost use Rattle.kt_kat.specs.Files.{files_of, file_by_file};
ghost use Rattle.kt_kat.specs.Found.{AreFound};

use crate::file_step::FileStep;
use kt_ends::ToolStop;
use kt_out::{Inputs, Sink};
use kt_words::Words;
use std::alloc::Global;

/// Makes a step with the file of each word but the first, which have these sizes, in their order.
pub(crate) fn each_file<F: FileStep, I: Inputs, K: Sink>(
    alloc: Global,
    step: &mut F,
    words: &Words,
    sizes: &[u64],
    inputs: &mut I,
    sink: &mut K,
) -> Result<(), ToolStop>
    requires each { length sizes.now + 1 ≡ length words.now }
    requires found { IfSome (I.state inputs.old).held (λ files. AreFound (drop 1 words.now) files sizes.now) }

    ensures ended { (start : F.State) → F.is_at start step.old → IfSome (I.state inputs.old).held (λ files. (contents : List (List ℕ)) → files_of (drop 1 words.now) files ≡ Ok contents → IsEnd (file_by_file F.made F.next start 1 contents) (K.state sink.old).taken (K.state sink.new).taken (end_status result)) }
    ensures files { (I.state inputs.new).held ≡ (I.state inputs.old).held }
    ensures counted { (outputs : OutputsState) (source : SourceState) → Counted (world (I.state inputs.old) outputs source (K.state sink.old)) (world (I.state inputs.new) outputs source (K.state sink.new)) (end_status result) }
{
    // The number of a word is a `u32`.
    let _count = words.len();
    'files: for n in 0..sizes.len() {
        let name = words.word(n + 1);
        if let Err(stop) = step.step(alloc, n as u32 + 1, name, sizes[n], inputs, sink) {
            return Err(stop);
        }
    }
    Ok(())
}
