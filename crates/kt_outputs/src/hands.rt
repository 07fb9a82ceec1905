//! The texts of files, made by hands that are busy side by side: each claims one file after the other.
//! The rules: docs/REFUSALS.md, "Statuses".
ghost use Rattle.std.specs.Prelude.{◌≡◌, ◌<◌, ◌≤◌, ℕ, All, List, [], length, map, slice_index_or, IfOk, IfSome};
ghost use Rattle.kt_outputs.specs.Hands.{IsHandOf, IsTaken, IsTextOf};
ghost use Rattle.kt_outputs.specs.Texts.{text_of};

use crate::calls::calls_beside;
use crate::texts::Texts;
use kt_money::{Bytes, OutOfMemory};
use std::alloc::{AllocError, Global};
use std::sync::atomic::{AtomicUsize, Ordering};
use std::thread::Threads;

/// A text that was made for a file of a list.
#[derive(Drop)]
pub struct MadeText {
    /// The place of the file in the list.
    place: usize,
    /// The whole text that the file gains.
    text: Bytes,
}

/// The texts that a hand has made, in the order in which it claimed their files; or an error, where memory was wanting for the last.
pub(crate) type Hand = Result<Vec<MadeText>, OutOfMemory>;

/// The text that a file gains, whole.
fn whole_text<F, T: Texts<F>>(alloc: Global, file: &F, texts: &T) -> Result<Bytes, OutOfMemory>
    ensures value { (start : T.Start) → T.are_of start texts.now → IfOk result (λ text. text ≡ text_of T.pieces_of start texts.now file.now) }
{
    let mut text = Bytes::new(alloc);
    for piece in 0..texts.pieces(file) {
        match texts.push(file, piece, &mut text) {
            Ok(()) => {}
            Err(error) => return Err(error),
        }
    }
    Ok(text)
}

/// The place of the next of so many pieces of work, as files, the last first, which no hand has claimed; `None` once each is claimed.
/// `claimed` begins with 0.
pub fn claim(claimed: &AtomicUsize, count: usize) -> Option<usize>
    ensures within { IfSome result (λ place. place < count) }
{
    let before = claimed.fetch_add(1, Ordering::SeqCst);
    if before < count {
        Some(count - 1 - before)
    } else {
        None
    }
}

/// What one hand makes: the texts of the files that it claims, one after the other, until each is claimed. An error is want of memory.
fn hand_texts<F, T: Texts<F>>(alloc: Global, files: &[F], claimed: &AtomicUsize, texts: &T) -> Hand
    ensures value { (start : T.Start) → T.are_of start texts.now → IsHandOf (map (text_of T.pieces_of start texts.now) files.now) result }
{
    let mut made = Vec::new(alloc);
    for _turn in 0..files.len() {
        let Some(place) = claim(claimed, files.len()) else {
            break;
        };
        let text = whole_text(alloc, &files[place], texts)?;
        made.push(MadeText { place, text })?;
    }
    Ok(made)
}

/// The texts of files, by so many hands that are busy side by side, each in a thread of its own where one can be made. An error is
/// want of memory for the hands.
pub(crate) fn texts_beside<R: Threads + Sync, F: Sync, T: Texts<F> + Sync>(
    rt: &R,
    alloc: Global,
    files: &[F],
    hands: usize,
    texts: &T,
) -> Result<Vec<Hand>, AllocError>
    ensures value { IfOk result (λ made. (start : T.Start) → T.are_of start texts.now → All (IsHandOf (map (text_of T.pieces_of start texts.now) files.now)) made.items) }
{
    let claimed = AtomicUsize::new(0);
    calls_beside(
        rt,
        alloc,
        hands,
        &|_hand| { hand_texts(alloc, files, &claimed, texts) },
    )
}

/// Takes the last of some texts, where it is that of the file at a place.
fn take_last(made: &mut Vec<MadeText>, place: usize) -> Option<Bytes>
    ensures { (wanted : List (List ℕ)) → All (IsTextOf wanted) made.old.items → All (IsTextOf wanted) made.new.items × IfSome result (λ text. text ≡ slice_index_or wanted place []) }
{
    if made.last()?.place != place {
        return None;
    }
    let last = made.pop()?;
    Some(last.text)
}

/// Takes the last text of a hand, where it is that of the file at a place. An error is want of memory of the hand.
fn take_from(hand: &mut Hand, place: usize) -> Result<Option<Bytes>, OutOfMemory>
    ensures { (wanted : List (List ℕ)) → IsHandOf wanted hand.old → IsHandOf wanted hand.new × IfOk result (IsTaken wanted place) }
{
    match hand {
        Ok(made) => Ok(take_last(made, place)),
        Err(error) => Err(*error),
    }
}

/// Takes the text of the file at a place from the hand that has made it; `None` where none has. The places are asked for from the first
/// to the last, and a hand claims the last file first: so the text that comes next is the last that its hand has left. An error is
/// want of memory of a hand: such a one has claimed a file whose text no hand has.
pub(crate) fn take_text(hands: &mut [Hand], place: usize) -> Result<Option<Bytes>, OutOfMemory>
    ensures { (wanted : List (List ℕ)) → All (IsHandOf wanted) hands.old → All (IsHandOf wanted) hands.new × IfOk result (IsTaken wanted place) }
{
    for hand in hands.iter_mut() {
        if let Some(text) = take_from(hand, place)? {
            return Ok(Some(text));
        }
    }
    Ok(None)
}
