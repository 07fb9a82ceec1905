//! The check of footprint rows that takes no memory: each row is held against all rows before it.
//! The rules: docs/CHECKS.md, "Footprint rows of an event".
ghost use Rattle.std.specs.Prelude.{◌≡◌, ◌≤◌, ℕ, None, cond, nat_eq};
ghost use Rattle.std.specs.List.{list_any};
ghost use Rattle.kt_rec.specs.FootRows.{areaperil_total, first_refused_row, is_at, row_cause};

use crate::foot_rows::field_cause;
use kt_rec::{FootRow, ModelStop, RowCause};

/// Whether a row is of the areaperil and intensity of another.
fn is_at(one: &FootRow, row: &FootRow) -> bool
    ensures { result ≡ is_at row.now.areaperil row.now.intensity one.now }
{
    one.areaperil == row.areaperil && one.intensity == row.intensity
}

/// Whether one of earlier rows is of a row's areaperil and intensity.
fn is_among(earlier: &[FootRow], row: &FootRow) -> bool
    ensures { result ≡ list_any (is_at row.now.areaperil row.now.intensity) earlier.now }
{
    earlier.iter().any(|one| is_at(one, row))
}

/// The probabilities of an areaperil in rows, where they keep their bound.
fn total_of(rows: &[FootRow], areaperil: u32) -> u64
    requires within { areaperil_total rows.now areaperil ≤ 1001000 }
    ensures { result ≡ areaperil_total rows.now areaperil }
{
    let mut total = 0u64;
    for row in rows {
        total += prob_at(row, areaperil);
    }
    total
}

/// The probability of a row of an areaperil; 0 of another.
fn prob_at(row: &FootRow, areaperil: u32) -> u64
    ensures { result ≡ cond (nat_eq row.now.areaperil areaperil) row.now.prob 0 }
{
    if row.areaperil == areaperil {
        u64::from(row.prob)
    } else {
        0
    }
}

/// Why a row is refused behind earlier ones, none of which is.
fn cause_behind(earlier: &[FootRow], row: &FootRow) -> Option<RowCause>
    requires within { (areaperil : ℕ) → areaperil_total earlier.now areaperil ≤ 1001000 }
    ensures { result ≡ row_cause earlier.now row.now }
{
    if let Some(cause) = field_cause(row) {
        return Some(cause);
    }
    if is_among(earlier, row) {
        return Some(RowCause::Twice);
    }
    if total_of(earlier, row.areaperil) + u64::from(row.prob) > 1_001_000 {
        return Some(RowCause::Sum);
    }
    None
}

/// The first row that is refused, with its cause. It takes time by the square of the rows.
pub(crate) fn first_held(rows: &[FootRow]) -> Option<ModelStop>
    ensures first { result ≡ first_refused_row rows.now }
    ensures within { result ≡ None → (areaperil : ℕ) → areaperil_total rows.now areaperil ≤ 1001000 }
{
    for index in 0..rows.len() {
        if let Some(cause) = cause_behind(&rows[..index], &rows[index]) {
            return Some(ModelStop::Row {
                row: index as u64 + 1,
                cause,
            });
        }
    }
    None
}
