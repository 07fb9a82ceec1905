//! Appending to each file of a list the text that it gains, where several texts are made side by side.
//! The rules: docs/REFUSALS.md, "Statuses".
ghost use Rattle.std.specs.Prelude.{◌≡◌, ◌≤◌, ◌++◌, ◌+◌, ◌*◌, ℕ, All, List, drop, length, map, min, take, IfOk, IfSome};
ghost use Rattle.kt_out.specs.Appending.{AppendsAll};
ghost use Rattle.kt_out.specs.OutputFiles.{CountsOutput, OutputsState};
ghost use Rattle.kt_outputs.specs.Beside.{GroupMakes, MadeUpTo};
ghost use Rattle.kt_outputs.specs.Files.{Makes, files_with};
ghost use Rattle.kt_outputs.specs.Hands.{IsHandOf};
ghost use Rattle.kt_outputs.specs.Names.{AreDistinct};
ghost use Rattle.kt_outputs.specs.Texts.{text_of};

use crate::appending::append_text;
use crate::hands::{Hand, take_text, texts_beside};
use crate::named::{Named, name_of};
use crate::texts::Texts;
use kt_money::{Bytes, OutOfMemory};
use kt_out::{Fault, Outputs, append_all};
use std::alloc::Global;
use std::thread::Threads;

/// How many texts are made for each hand before they are appended, at the most.
const TEXTS_OF_HAND: usize = 64;

/// How many hands are busy at the most.
const MOST_HANDS: usize = 256;

/// Appends to a file the text that was made for it.
fn append_made<O: Outputs, F: Named>(
    alloc: Global,
    outputs: &mut O,
    file: &F,
    text: &Bytes,
) -> Result<(), Fault>
    ensures moved { AppendsAll (O.state outputs.old).written (O.state outputs.new).written (F.name file.now) text.now result }
    ensures counts { CountsOutput (O.state outputs.old).faults (O.state outputs.new).faults result }
    ensures counted { (O.state outputs.old).faults ≤ (O.state outputs.new).faults }
{
    match name_of(alloc, file) {
        Ok(name) => append_all(outputs, name.as_slice(), text.as_slice()),
        Err(_) => Err(Fault::OutOfMemory),
    }
}

/// Appends to a file the text that it gains: the one that was made for it; where no hand has made one, it is made here. An error of the
/// hands is want of memory.
fn append_either<O: Outputs, F: Named, T: Texts<F>>(
    alloc: Global,
    outputs: &mut O,
    file: &F,
    texts: &T,
    made: Result<Option<Bytes>, OutOfMemory>,
) -> Result<(), Fault>
    ensures moved { (start : T.Start) → T.are_of start texts.now → IfOk made (λ one. IfSome one (λ text. text ≡ text_of T.pieces_of start texts.now file.now)) → AppendsAll (O.state outputs.old).written (O.state outputs.new).written (F.name file.now) (text_of T.pieces_of start texts.now file.now) result }
    ensures counts { CountsOutput (O.state outputs.old).faults (O.state outputs.new).faults result }
    ensures counted { (O.state outputs.old).faults ≤ (O.state outputs.new).faults }
{
    match made {
        Ok(Some(text)) => append_made(alloc, outputs, file, &text),
        Ok(None) => append_text(alloc, outputs, file, texts, &mut Bytes::new(alloc)),
        Err(_) => Err(Fault::OutOfMemory),
    }
}

/// Appends to so many files from a place on the texts that hands have made for them, in the order of the files.
fn append_group<O: Outputs, F: Named, T: Texts<F>>(
    alloc: Global,
    outputs: &mut O,
    files: &[F],
    first: usize,
    count: usize,
    texts: &T,
    made: &mut [Hand],
) -> Result<(), Fault>
    requires distinct { AreDistinct (map F.name files.now) }
    requires within { first + count ≤ length files.now }
    ensures made { (start : T.Start) (begun : OutputsState) (text : F → List ℕ) → T.are_of start texts.now → All (IsHandOf (map (text_of T.pieces_of start texts.now) (take count (drop first files.now)))) made.old → MadeUpTo F.name text (text_of T.pieces_of start texts.now) files.now first begun (O.state outputs.old) → GroupMakes F.name text (text_of T.pieces_of start texts.now) files.now (first + count) begun (O.state outputs.new) result }
    ensures counts { CountsOutput (O.state outputs.old).faults (O.state outputs.new).faults result }
    ensures counted { (O.state outputs.old).faults ≤ (O.state outputs.new).faults }
{
    for at in 0..count {
        let text = take_text(made, at);
        match append_either(alloc, outputs, &files[first + at], texts, text) {
            Ok(()) => {}
            Err(fault) => return Err(fault),
        }
    }
    Ok(())
}

/// How many hands are busy with the files that are left.
fn hands_for(left: usize, workers: usize) -> usize
    requires left { 1 ≤ left }
    requires workers { 1 ≤ workers }
    ensures some { 1 ≤ result }
    ensures most { result ≤ workers }
    ensures few { result ≤ 256 }
{
    workers.min(left).min(MOST_HANDS)
}

/// How many of the files that are left these hands have.
fn files_of(left: usize, hands: usize) -> usize
    requires few { hands ≤ 256 }
    ensures value { result ≡ min left (64 * hands) }
{
    left.min(TEXTS_OF_HAND * hands)
}

/// Appends to each file of a list the text that it gains, as `append_texts` does, where the texts are made whole, by as many hands as
/// `workers` says, side by side, each in a thread of its own where one can be made. Of up to 64 files a hand at a time a hand that is
/// done claims the next, the last first, so none stands idle while a file is left. The texts are appended in the order of the files,
/// on the calling thread. `workers` is at least 1, and the names of the files are distinct. After a refusal a front of the files has
/// gained its text, and the next a front of it. The count of faults rises exactly where `Failed` comes; want of memory, also of a name
/// or of a text, raises none.
pub fn append_texts_beside<R: Threads + Sync, O: Outputs, F: Named + Sync, T: Texts<F> + Sync>(
    rt: &R,
    alloc: Global,
    outputs: &mut O,
    files: &[F],
    texts: &T,
    workers: usize,
) -> Result<(), Fault>
    requires distinct { AreDistinct (map F.name files.now) }
    requires some { 1 ≤ workers }
    ensures made { (start : T.Start) → T.are_of start texts.now → (text : F → List ℕ) → Makes (files_with F.name text files.now) (files_with F.name (λ file. text file ++ text_of T.pieces_of start texts.now file) files.now) (O.state outputs.old) (O.state outputs.new) result }
    ensures counts { CountsOutput (O.state outputs.old).faults (O.state outputs.new).faults result }
    ensures counted { (O.state outputs.old).faults ≤ (O.state outputs.new).faults }
{
    let mut first = 0;
    while first < files.len() {
        let left = files.len() - first;
        let hands = hands_for(left, workers);
        let count = files_of(left, hands);
        let group = &files[first..first + count];
        let Ok(mut made) = texts_beside(rt, alloc, group, hands, texts) else {
            return Err(Fault::OutOfMemory);
        };
        match append_group(
            alloc,
            outputs,
            files,
            first,
            count,
            texts,
            made.as_mut_slice(),
        ) {
            Ok(()) => {}
            Err(fault) => return Err(fault),
        }
        first += count;
    }
    Ok(())
}
