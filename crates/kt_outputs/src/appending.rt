//! Appending to each file of a list the text that it gains.
//! The rules: docs/REFUSALS.md, "Statuses".
ghost use Rattle.std.specs.Prelude.{◌≡◌, ◌≤◌, ◌++◌, ℕ, List, [], map, OnOk};
ghost use Rattle.kt_out.specs.Appending.{AppendsAll};
ghost use Rattle.kt_out.specs.OutputFiles.{CountsOutput};
ghost use Rattle.kt_outputs.specs.Files.{Makes, files_with};
ghost use Rattle.kt_outputs.specs.Names.{AreDistinct};
ghost use Rattle.kt_outputs.specs.Texts.{text_of};

use crate::named::{Named, name_of};
use crate::spill::{spill, spill_block};
use crate::texts::Texts;
use kt_money::Bytes;
use kt_out::{Fault, Outputs};
use std::alloc::Global;

// Appends the pieces of the text of a file, a block at a time; all that is gathered is appended at the end.
fn append_pieces<O: Outputs, F, T: Texts<F>>(
    outputs: &mut O,
    name: &[u8],
    file: &F,
    texts: &T,
    out: &mut Bytes,
) -> Result<(), Fault>
    requires { out.old ≡ [] }

    ensures moved { (start : T.Start) → T.are_of start texts.now → AppendsAll (O.state outputs.old).written (O.state outputs.new).written name.now (text_of T.pieces_of start texts.now file.now) result }
    ensures none_pending { OnOk result (out.new ≡ []) }

    ensures counts { CountsOutput (O.state outputs.old).faults (O.state outputs.new).faults result }
    ensures counted { (O.state outputs.old).faults ≤ (O.state outputs.new).faults }
    ensures untouched { (start : T.Start) → T.are_of start texts.now → text_of T.pieces_of start texts.now file.now ≡ [] → O.state outputs.new ≡ O.state outputs.old }
{
    for piece in 0..texts.pieces(file) {
        match texts.push(file, piece, out) {
            Ok(()) => {}
            Err(_) => return Err(Fault::OutOfMemory),
        }
        match spill_block(outputs, name, out) {
            Ok(()) => {}
            Err(fault) => return Err(fault),
        }
    }
    spill(outputs, name, out)
}

/// Appends to a file the text that it gains, a block at a time; nothing is pending before and after.
pub(crate) fn append_text<O: Outputs, F: Named, T: Texts<F>>(
    alloc: Global,
    outputs: &mut O,
    file: &F,
    texts: &T,
    out: &mut Bytes,
) -> Result<(), Fault>
    requires { out.old ≡ [] }

    ensures moved { (start : T.Start) → T.are_of start texts.now → AppendsAll (O.state outputs.old).written (O.state outputs.new).written (F.name file.now) (text_of T.pieces_of start texts.now file.now) result }
    ensures none_pending { OnOk result (out.new ≡ []) }

    ensures counts { CountsOutput (O.state outputs.old).faults (O.state outputs.new).faults result }
    ensures counted { (O.state outputs.old).faults ≤ (O.state outputs.new).faults }
    ensures untouched { (start : T.Start) → T.are_of start texts.now → text_of T.pieces_of start texts.now file.now ≡ [] → O.state outputs.new ≡ O.state outputs.old }
{
    match name_of(alloc, file) {
        Ok(name) => append_pieces(outputs, name.as_slice(), file, texts, out),
        Err(_) => Err(Fault::OutOfMemory),
    }
}

/// Appends to each file of a list the text that it gains, one file after the other, in blocks of 64 KiB; the names of the
/// files are distinct. What the texts are is known for each start that tells them. A file that gains no text is not touched. After a refusal a front of the files has gained its text,
/// and the next a front of it. The count of faults rises exactly where `Failed` comes; want of memory, also of a name or of
/// a block, raises none.
pub fn append_texts<O: Outputs, F: Named, T: Texts<F>>(
    alloc: Global,
    outputs: &mut O,
    files: &[F],
    texts: &T,
) -> Result<(), Fault>
    requires distinct { AreDistinct (map F.name files.now) }

    ensures made { (start : T.Start) → T.are_of start texts.now → (text : F → List ℕ) → Makes (files_with F.name text files.now) (files_with F.name (λ file. text file ++ text_of T.pieces_of start texts.now file) files.now) (O.state outputs.old) (O.state outputs.new) result }

    ensures counts { CountsOutput (O.state outputs.old).faults (O.state outputs.new).faults result }
    ensures counted { (O.state outputs.old).faults ≤ (O.state outputs.new).faults }
    ensures untouched { (start : T.Start) → T.are_of start texts.now → ((file : F) → text_of T.pieces_of start texts.now file ≡ []) → O.state outputs.new ≡ O.state outputs.old }
{
    let mut out = Bytes::new(alloc);
    for file in files {
        match append_text(alloc, outputs, file, texts, &mut out) {
            Ok(()) => {}
            Err(fault) => return Err(fault),
        }
    }
    Ok(())
}
