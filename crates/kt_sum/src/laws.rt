//! Theorems about summaries, as functions with an empty body.
//! The rules: docs/CALCULATION.md, "Summaries"; docs/STREAMS.md, "Runs".
ghost use Rattle.std.specs.Prelude.{◌≡◌, ℕ, List, map, All};
ghost use Rattle.std.specs.List.Sorted.{IsStrictlyIncreasing};
ghost use Rattle.kt_rec.specs.declared.perspective.Perspective.{Perspective};
ghost use Rattle.kt_runs.specs.RunLosses.{AreWithin, event_of};
ghost use Rattle.kt_stream.specs.Losses.{IsLoss};
ghost use Rattle.kt_stream.specs.Summary.{IsSummary};
ghost use Rattle.kt_stream.specs.declared.entry.LossRecord.{LossRecord};
ghost use Rattle.kt_sum.specs.Summaries.{run_summaries};

use kt_tables::Portfolio;

/// The summaries of a run whose records may stand in a stream with so many samples, and whose losses add to at most 10^16 cents
/// at each sidx, are records of such a stream, and one run: all of the event of the run, and by strictly rising summaries.
pub fn summaries_are_of_a_stream(portfolio: &Portfolio)
    ensures good { (perspective : Perspective) (set samples : ℕ) (records : List LossRecord) → AreWithin records → All (IsLoss samples) records → All (IsSummary samples) (run_summaries perspective portfolio.now.rows portfolio.now.need.rule set records) }
    ensures event { (perspective : Perspective) (rule set : ℕ) (records : List LossRecord) → All (λ entry. entry.event ≡ event_of records) (run_summaries perspective portfolio.now.rows rule set records) }
    ensures same_event { (perspective : Perspective) (rule set event : ℕ) (records : List LossRecord) → All (λ entry. entry.event ≡ event) records → All (λ entry. entry.event ≡ event) (run_summaries perspective portfolio.now.rows rule set records) }
    ensures rising { (perspective : Perspective) (rule set : ℕ) (records : List LossRecord) → IsStrictlyIncreasing (map (λ entry. entry.summary) (run_summaries perspective portfolio.now.rows rule set records)) }
{
    portfolio.keeps_summaries();
}
