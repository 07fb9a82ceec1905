//! Theorems about damage distributions, as functions with an empty body.
//! The rules: docs/CALCULATION.md, "Damage distribution"; docs/STREAMS.md, "Runs".
ghost use Rattle.std.specs.Prelude.{◌≡◌, ◌+◌, ◌*◌, ◌^◌, ℕ, List, length, map, All, None, true};
ghost use Rattle.std.specs.List.Sorted.{IsStrictlyIncreasing};
ghost use Rattle.kt_keys.specs.Refusals.{is_loaded};
ghost use Rattle.kt_rec.specs.FootRows.{first_refused_row};
ghost use Rattle.kt_rec.specs.declared.hazard.FootRow.{FootRow};
ghost use Rattle.kt_rec.specs.declared.table.Table.TheVariants as table;
ghost use Rattle.kt_stream.specs.Bins.{IsCdf};
ghost use Rattle.kt_stream.specs.Pairs.{IsId};
ghost use Rattle.kt_model.specs.Distribution.{distributions_of};

use kt_tables::Portfolio;

/// Where no row of its footprint is refused, the distributions of an event are records of a stream, of no more bins than the
/// dictionary; whatever its footprint, they are one run: all of the event, and by strictly rising areaperil and then
/// vulnerability. The damage bins must be loaded.
pub fn distributions_are_of_a_stream(portfolio: &Portfolio)
    requires loaded { is_loaded portfolio.now.need 0 table.DamageBinDict ≡ true }
    ensures good { (event : ℕ) (foot : List FootRow) → IsId event → first_refused_row foot ≡ None → All (IsCdf (length portfolio.now.rows.damage_bin_dict)) (distributions_of portfolio.now.rows event foot) }
    ensures event { (event : ℕ) (foot : List FootRow) → All (λ cdf. cdf.event ≡ event) (distributions_of portfolio.now.rows event foot) }
    ensures rising { (event : ℕ) (foot : List FootRow) → IsStrictlyIncreasing (map (λ cdf. cdf.areaperil * 2 ^ 32 + cdf.vulnerability) (distributions_of portfolio.now.rows event foot)) }
{
    portfolio.is_valid();
    portfolio.keeps_damage();
}
