//! Theorems about ground-up losses, as functions with an empty body.
//! The rules: docs/CALCULATION.md, "Coverage cut"; docs/STREAMS.md, "Runs".
ghost use Rattle.std.specs.Prelude.{◌≡◌, ◌<◌, ◌≤◌, ℕ, ℤ, Bool, List, length, map, All, true, false};
ghost use Rattle.std.specs.List.Sorted.{IsStrictlyIncreasing};
ghost use Rattle.kt_checks.specs.TableChecks.{tiv_of};
ghost use Rattle.kt_rec.specs.declared.exposure.Item.{Item};
ghost use Rattle.kt_runs.specs.RunLosses.{run_loss};
ghost use Rattle.kt_stream.specs.Losses.{IsLoss};
ghost use Rattle.kt_stream.specs.Pairs.{IsId};
ghost use Rattle.kt_stream.specs.declared.entry.Cdf.{Cdf};
ghost use Rattle.kt_gul.specs.GroundUp.{coverage_loss, ground_up_loss, ground_up_records};
ghost use Rattle.kt_gul.specs.StruckItems.{AreCdfs};

use kt_tables::Portfolio;

/// The insured value of a coverage is shared out to its items to the cent: where the losses without the cut pass it, those
/// with the cut add exactly to it, and elsewhere they are the same; at each place but the first, that of the deviation.
pub fn items_share_the_insured_value(portfolio: &Portfolio)
    ensures shared { (event coverage place : ℕ) (cdfs : List Cdf) → 1 ≤ place → tiv_of portfolio.now.rows.coverages coverage < coverage_loss portfolio.now.rows false event cdfs coverage place → coverage_loss portfolio.now.rows true event cdfs coverage place ≡ tiv_of portfolio.now.rows.coverages coverage }
    ensures plain { (event coverage place : ℕ) (cdfs : List Cdf) (row : Item) → 1 ≤ place → coverage_loss portfolio.now.rows false event cdfs coverage place ≤ tiv_of portfolio.now.rows.coverages coverage → row.coverage_id ≡ coverage → ground_up_loss portfolio.now.rows true event cdfs row place ≡ ground_up_loss portfolio.now.rows false event cdfs row place }
{
    portfolio.is_valid();
}

/// The ground-up losses of an event add at each sidx to at most twice 10^14 cents, since the insured values of all items add to
/// at most 10^14 (check 5), a mean and a sample are at most the insured value, and a deviation at most twice that.
pub fn ground_up_losses_are_within(portfolio: &Portfolio)
    ensures within { (samples event : ℕ) (cut : Bool) (cdfs : List Cdf) → AreCdfs (length portfolio.now.rows.damage_bin_dict) cdfs → (sidx : ℤ) → run_loss sidx (ground_up_records portfolio.now.rows samples cut event cdfs) ≤ 200000000000000 }
{
    portfolio.is_valid();
    portfolio.keeps_sizes();
}

/// The records of an event's ground-up losses are records of a stream with so many samples, and one run: all of the event, and
/// by strictly rising ids of items.
pub fn ground_up_records_are_of_a_stream(portfolio: &Portfolio)
    ensures good { (samples event : ℕ) (cut : Bool) (cdfs : List Cdf) → IsId event → AreCdfs (length portfolio.now.rows.damage_bin_dict) cdfs → All (IsLoss samples) (ground_up_records portfolio.now.rows samples cut event cdfs) }
    ensures event { (samples event : ℕ) (cut : Bool) (cdfs : List Cdf) → All (λ entry. entry.event ≡ event) (ground_up_records portfolio.now.rows samples cut event cdfs) }
    ensures rising { (samples event : ℕ) (cut : Bool) (cdfs : List Cdf) → IsStrictlyIncreasing (map (λ entry. entry.id) (ground_up_records portfolio.now.rows samples cut event cdfs)) }
{
    portfolio.is_valid();
    portfolio.keeps_keys();
}
