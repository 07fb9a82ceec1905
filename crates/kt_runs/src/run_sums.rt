//! The losses of a run as they add up, record by record.
//! The rule: docs/STREAMS.md, "Runs".
ghost use Rattle.std.specs.Prelude.{◌≡◌, true, not, ◌+◌, [], ◌∷◌, ◌++◌, List, length, IfOk};
ghost use Rattle.kt_stream.specs.Losses.{IsLoss};
ghost use Rattle.kt_stream.specs.declared.entry.LossRecord.{LossRecord};
ghost use Rattle.kt_runs.specs.RunLosses.{goes_past};
ghost use Rattle.kt_runs.specs.RunSums.{AreSums, AreRunSums};

use crate::sidx::place_of;
use crate::sums::zeros;
use kt_stream::LossRecord;
use std::alloc::{AllocError, Global};

/// The place of sidx -2, the least of a stream.
const FIRST: u32 = 2_147_483_646;

/// The most that the losses of a sidx may add to in a run, in cents.
const MOST: u64 = 10_000_000_000_000_000;

/// The sums of a run that has no record yet, in a stream with so many samples. An error is want of memory.
pub fn no_run_sums(alloc: Global, samples: u32) -> Result<Vec<u64>, AllocError>
    ensures value { IfOk result (λ sums. AreRunSums samples [] sums.items) }
    ensures sums { IfOk result (λ sums. AreSums samples sums.items) }
{
    zeros(alloc, samples as usize + 3)
}

/// Adds the losses of a record to the sums of its run, and answers whether none of them passes 10^16 cents. Where one does
/// the sums are no longer those of the run.
pub fn add_to_run(sums: &mut [u64], samples: u32, entry: &LossRecord) -> bool
    requires entry { IsLoss samples entry.now }
    requires sums { AreSums samples sums.old }
    ensures exact { (records : List LossRecord) → AreRunSums samples records sums.old → result ≡ not (goes_past records entry.now) }
    ensures kept { (records : List LossRecord) → AreRunSums samples records sums.old → result ≡ true → AreRunSums samples (records ++ entry.now ∷ []) sums.new }
    ensures sums { result ≡ true → AreSums samples sums.new }
{
    for pair in entry.pairs.as_slice() {
        let place = (place_of(pair) - FIRST) as usize;
        let sum = sums[place] + pair.loss;
        if sum > MOST {
            return false;
        }
        sums[place] = sum;
    }
    true
}

/// Makes the sums those of a run that has no record yet.
pub fn clear_run(sums: &mut [u64], samples: u32)
    requires width { length sums.old ≡ samples + 3 }
    ensures value { AreRunSums samples [] sums.new }
    ensures sums { AreSums samples sums.new }
{
    sums.fill(0);
}
