//! The tool `kat`.
//! The rules: docs/COMMANDS.md, "kat".
ghost use Rattle.std.specs.Prelude.{◌≡◌, ◌<◌, ◌+◌, ℕ, List, length, Ok, IfSome};
ghost use Rattle.kt_out.specs.OutputFiles.{OutputsState};
ghost use Rattle.kt_out.specs.Reading.{SourceState};
ghost use Rattle.kt_ends.specs.Ending.{Counted, ToolEnds};
ghost use Rattle.kt_ends.specs.Stops.{end_status};
ghost use Rattle.kt_ends.specs.World.{world};
ghost use Rattle.kt_loop.specs.Settling.{IsEnd};
ghost use Rattle.kt_words.specs.FileNames.{file_names};
ghost use Rattle.kt_kat.specs.Files.{files_of};
ghost use Rattle.kt_kat.specs.Found.{AreFound, FoundFirst};
ghost use Rattle.kt_kat.specs.Outcome.{kat_outcome, kat_uses, together};

use crate::each_file::each_file;
use crate::front::{FileKind, kind_of_file};
use crate::kinds::{CdfStreams, GulStreams, LossStreams, SummaryStreams};
use crate::plain::PlainBytes;
use crate::sizes::find_sizes;
use crate::stops::unread_stop;
use crate::streams::StreamFiles;
use kt_ends::ToolStop;
use kt_out::{Inputs, Sink};
use kt_words::Words;
use std::alloc::Global;

/// Writes the files of all words but the first as one stream of their kind, or their bytes one after the other.
fn write_together<I: Inputs, K: Sink>(
    alloc: Global,
    kind: FileKind,
    words: &Words,
    sizes: &[u64],
    inputs: &mut I,
    sink: &mut K,
) -> Result<(), ToolStop>
    requires each { length sizes.now + 1 ≡ length words.now }
    requires found { IfSome (I.state inputs.old).held (λ files. AreFound (file_names words.now) files sizes.now) }

    ensures ended { IfSome (I.state inputs.old).held (λ files. (contents : List (List ℕ)) → files_of (file_names words.now) files ≡ Ok contents → IsEnd (together kind contents) (K.state sink.old).taken (K.state sink.new).taken (end_status result)) }
    ensures files { (I.state inputs.new).held ≡ (I.state inputs.old).held }
    ensures counted { (outputs : OutputsState) (source : SourceState) → Counted (world (I.state inputs.old) outputs source (K.state sink.old)) (world (I.state inputs.new) outputs source (K.state sink.new)) (end_status result) }
{
    macro_rules! streams {
        ($kind:expr) => {
            each_file(alloc, &mut StreamFiles::new($kind), words, sizes, inputs, sink)
        };
    }
    match kind {
        FileKind::Cdf => streams!(CdfStreams),
        FileKind::Gul => streams!(GulStreams),
        FileKind::Loss => streams!(LossStreams),
        FileKind::Summary => streams!(SummaryStreams),
        FileKind::Plain => each_file(alloc, &mut PlainBytes, words, sizes, inputs, sink),
    }
}

/// Makes one stream of the streams in the files that all words but the first name, or writes their bytes one after the
/// other. An error is the first file that is missing, too large or refused, a fault of the files or of the sink, or
/// want of memory: where it is refused the output of what came before is written, and any other error leaves some front
/// of the output.
pub fn kat<I: Inputs, K: Sink>(
    alloc: Global,
    words: &Words,
    inputs: &mut I,
    sink: &mut K,
) -> Result<(), ToolStop>
    requires { 0 < length (file_names words.now) }
    // The source and the output files are none of its objects: whatever they hold and have counted stays so.
    ensures ends { (outputs : OutputsState) (source : SourceState) → ToolEnds kat_uses (λ files _. kat_outcome (file_names words.now) files) (world (I.state inputs.old) outputs source (K.state sink.old)) (world (I.state inputs.new) outputs source (K.state sink.new)) (end_status result) }

    // Whatever the answer is: where a file is missing or too large nothing was written.
    ensures due { FoundFirst (file_names words.now) (I.state inputs.old) (K.state sink.old) (K.state sink.new) }
{
    let sizes = match find_sizes(alloc, words, inputs) {
        Ok(sizes) => sizes,
        Err(stop) => return Err(stop),
    };
    let kind = match kind_of_file(inputs, words.word(1), sizes[0]) {
        Ok(kind) => kind,
        Err(fault) => return Err(unread_stop(fault)),
    };
    write_together(alloc, kind, words, sizes.as_slice(), inputs, sink)
}
