//! The losses of the ranks that a curve asks for, without ranking all values.
//! The rules: docs/CALCULATION.md, "Exceedance curves".
ghost use Rattle.std.specs.Prelude.{◌≡◌, ◌-◌, ◌/◌, ◌≤◌, ◌<◌, ◌^◌, ℕ, List, ◌++◌, map, length, All, IfOk, OnErr, OnOk, slice_index, slice_index_or};
ghost use Rattle.std.specs.List.Sorted.{IsPermutation};
ghost use Rattle.kt_cell.specs.Standing.{most_total};
ghost use Rattle.kt_ranks.specs.RankedLosses.{falling, ranked_loss};
ghost use Rattle.kt_ranks.specs.Ranks.{SameRanks, HasLosses, Falls, reaching, curve_ranks};
ghost use Rattle.kt_stream.specs.Write.{BeginsWith};

use kt_money::OutOfMemory;
use std::alloc::Global;

/// So many values are sorted in less time than it takes to look for the losses of some ranks alone.
const FEW: usize = 200;

/// Sorts values so that they fall.
fn rank(values: &mut [u64])
    ensures falls { Falls values.new }
    ensures permutation { IsPermutation values.old values.new }
    ensures same { (least : ℕ) → reaching least values.new ≡ reaching least values.old }
    ensures len { length values.new ≡ length values.old }
    ensures most { All (λ value. value ≤ most_total) values.old → All (λ value. value ≤ most_total) values.new }
{
    values.sort_unstable();
    values.reverse();
}

/// The ranks of the losses that a curve of `count` values asks for, falling. An error is want of memory.
pub fn ranks_of(alloc: Global, count: u64, returns: &[u32]) -> Result<Vec<u64>, OutOfMemory>
    requires count { count ≤ 10 ^ 8 }
    requires returns { All (λ period. 1 ≤ period) returns.now }
    ensures falls { IfOk result (λ ranks. Falls ranks.items) }
    ensures same { IfOk result (λ ranks. IsPermutation (curve_ranks count returns.now) ranks.items) }
{
    let mut ranks = Vec::with_capacity(alloc, 2 * returns.len())?;
    for period in returns {
        if u64::from(*period) > count {
            continue;
        }
        let quotient = count / u64::from(*period);
        ranks.push(quotient - 1)?;
        ranks.push(quotient)?;
    }
    rank(ranks.as_mut_slice());
    Ok(ranks)
}

/// The greatest values, as many as the rank says, and the loss of that rank.
fn split_at_rank(values: &mut [u64], rank: usize) -> (&mut [u64], u64)
    requires { rank < length values.old }
    ensures loss { result.1 ≡ ranked_loss values.old rank }
    ensures front { (before : ℕ) → before ≤ rank → slice_index_or (falling result.0.now) before result.1 ≡ ranked_loss values.old before }
{
    let (front, loss, _) = values.select_nth_unstable_by(rank, |one, other| other.cmp(one));
    (front, *loss)
}

/// Appends the losses of falling ranks; `behind` is the loss of a rank behind the last. It leaves the values in no order. An error
/// is want of memory.
fn append_losses(
    losses: &mut Vec<u64>,
    values: &mut [u64],
    behind: u64,
    ranks: &[u64],
) -> Result<(), OutOfMemory>
    requires falls { Falls ranks.now }
    ensures ok { OnOk result (losses.new.items ≡ losses.old.items ++ map (λ rank. slice_index_or (falling values.old) rank behind) ranks.now) }
    ensures kept { OnErr result (BeginsWith losses.old.items losses.new.items) }
{
    let [rank, later @ ..] = ranks else {
        return Ok(());
    };
    let place = *rank as usize;
    if values.len() <= place {
        losses.push(behind)?;
        append_losses(losses, values, behind, later)
    } else {
        let (front, loss) = split_at_rank(values, place);
        losses.push(loss)?;
        append_losses(losses, front, loss, later)
    }
}

/// The loss of a rank, counted from 0; 0 behind the last.
pub(crate) fn loss_of_rank(ranked: &[u64], rank: u64) -> u64
    ensures value { result ≡ slice_index ranked.now rank }
{
    match usize::try_from(rank) {
        Ok(place) if place < ranked.len() => ranked[place],
        _ => 0,
    }
}

/// Appends the losses of falling ranks. It leaves the values in no order, whatever it answers. An error is want of memory; then some of
/// the losses may stand behind those that were there.
pub fn append_ranked(
    losses: &mut Vec<u64>,
    values: &mut [u64],
    ranks: &[u64],
) -> Result<(), OutOfMemory>
    requires falls { Falls ranks.now }
    ensures ok { OnOk result (losses.new.items ≡ losses.old.items ++ map (ranked_loss values.old) ranks.now) }

    ensures kept { OnErr result (BeginsWith losses.old.items losses.new.items) }
{
    if values.len() > FEW {
        return append_losses(losses, values, 0, ranks);
    }
    rank(values);
    for place in ranks {
        losses.push(loss_of_rank(values, *place))?;
    }
    Ok(())
}

/// Puts the losses of ranks at their places.
pub fn put_losses(values: &mut [u64], ranks: &[u64], losses: &[u64])
    requires { length losses.now ≡ length ranks.now }
    ensures { (whole : List ℕ) → length whole ≡ length values.old → losses.now ≡ map (ranked_loss whole) ranks.now → All (λ rank. slice_index values.new rank ≡ ranked_loss whole rank) ranks.now }
{
    for (index, loss) in losses.iter().enumerate() {
        let place = ranks[index] as usize;
        if place < values.len() {
            values[place] = *loss;
        }
    }
}

/// Puts the losses that a curve of `count` values asks for at the places of their ranks; what stands at the other places has no
/// meaning. An error is want of memory.
pub(crate) fn place_losses(
    alloc: Global,
    values: &mut [u64],
    count: u64,
    returns: &[u32],
) -> Result<(), OutOfMemory>
    requires count { count ≤ 10 ^ 8 }
    requires returns { All (λ period. 1 ≤ period) returns.now }
    ensures placed { OnOk result ((whole : List ℕ) → SameRanks values.old whole → All (λ period. period ≤ count → HasLosses values.new whole count period) returns.now) }
{
    if values.len() <= FEW {
        rank(values);
        return Ok(());
    }
    let ranks = ranks_of(alloc, count, returns)?;
    let mut losses = Vec::with_capacity(alloc, ranks.len())?;
    append_losses(&mut losses, values, 0, ranks.as_slice())?;
    put_losses(values, ranks.as_slice(), losses.as_slice());
    Ok(())
}
