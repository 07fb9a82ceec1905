//! The pairs of areaperil and vulnerability that the footprint of an event reaches.
//! The rules: docs/CALCULATION.md, "Damage distribution".
ghost use Rattle.std.specs.Prelude.{◌≡◌, ◌<◌, ◌≤◌, ℕ, None, IfSome, length, drop, slice_index_or};
ghost use Rattle.std.specs.List.Sorted.{IsNonDecreasingBy};
ghost use Rattle.kt_model.specs.Scratch.{HasNone};

use kt_rec::FootRow;

/// The first areaperil from one on that has a row, of rows by rising areaperil.
fn next_areaperil(rows: &[FootRow], least: u32) -> Option<u32>
    requires rising { IsNonDecreasingBy (λ row. row.areaperil) rows.now }
    ensures some { IfSome result (λ next. (least ≤ next) × ((areaperil : ℕ) → least ≤ areaperil → areaperil < next → HasNone rows.now areaperil)) }
    ensures none { result ≡ None → (areaperil : ℕ) → least ≤ areaperil → HasNone rows.now areaperil }
{
    let start = rows.partition_point(|row| row.areaperil < least);
    if start == rows.len() {
        return None;
    }
    Some(rows[start].areaperil)
}

/// The pairs from a place on.
fn from_place(pairs: &[(u32, u32)], place: usize) -> &[(u32, u32)]
    requires { place ≤ length pairs.now }
    ensures value { result.now ≡ drop place pairs.now }
{
    &pairs[place..]
}

/// Whether the pair at a place has the areaperil of the one before it.
fn is_of_last(pairs: &[(u32, u32)], place: usize) -> bool
    requires { place < length pairs.now }
{
    place > 0 && pairs[place].0 == pairs[place - 1].0
}

/// The place of the first pair, from a place on, whose areaperil has a row; the number of pairs where there is none. Both stand
/// by rising areaperil, and the pair before the place, where there is one, has a row. No contract speaks of that: of a pair that
/// has no row, too, the distribution is right.
pub(crate) fn next_struck(pairs: &[(u32, u32)], rows: &[FootRow], place: usize) -> usize
    requires within { place ≤ length pairs.now }
    requires pairs_rise { IsNonDecreasingBy (λ pair. pair.0) pairs.now }
    requires rows_rise { IsNonDecreasingBy (λ row. row.areaperil) rows.now }
    ensures order { place ≤ result }
    ensures within { result ≤ length pairs.now }
    ensures passed { (k : ℕ) (d : ℕ × ℕ) → place ≤ k → k < result → HasNone rows.now (slice_index_or pairs.now k d).0 }
{
    if place == pairs.len() || is_of_last(pairs, place) {
        return place;
    }
    let Some(next) = next_areaperil(rows, pairs[place].0) else {
        return pairs.len();
    };
    place + from_place(pairs, place).partition_point(|pair| pair.0 < next)
}
