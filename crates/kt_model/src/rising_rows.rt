//! The check of footprint rows that stand by rising areaperil and then intensity, as they do in most footprints.
//! The rules: docs/CHECKS.md, "Footprint rows of an event".
ghost use Rattle.std.specs.Prelude.{◌≡◌, ◌≤◌, ◌++◌, ◌∷◌, [], ℕ, List, None, true, IfSome};
ghost use Rattle.kt_rec.specs.FootRows.{areaperil_total, first_refused_row, row_cause};
ghost use Rattle.kt_rec.specs.declared.hazard.FootRow.{FootRow};
ghost use Rattle.kt_model.specs.Rising.{IsAbove, IsNext, IsReached};

use crate::foot_rows::field_cause;
use kt_rec::FootRow;

/// What rising rows have come to: the last areaperil, its last intensity, and its probabilities together.
#[derive(Clone, Copy)]
struct Reached {
    areaperil: u32,
    intensity: u32,
    total: u64,
}

/// The probabilities of a row's areaperil before it, where the row stands above those before it.
fn total_before(reached: &Reached, row: &FootRow) -> Option<u64>
    ensures value { IfSome result (λ before. (rows : List FootRow) → IsReached rows reached.now → IsNext rows row.now before) }
    ensures above { IfSome result (λ before. IsAbove reached.now row.now) }
{
    if row.areaperil > reached.areaperil {
        return Some(0);
    }
    if row.areaperil == reached.areaperil && row.intensity > reached.intensity {
        return Some(reached.total);
    }
    None
}

/// What rows have come to with one more, where it stands above those before it and is not refused.
fn reached_with(reached: &Reached, row: &FootRow) -> Option<Reached>
    ensures value { IfSome result (λ next. (rows : List FootRow) → IsReached rows reached.now → IsReached (rows ++ row.now ∷ []) next) }
    ensures fine { IfSome result (λ next. (rows : List FootRow) → IsReached rows reached.now → row_cause rows row.now ≡ None) }
{
    if field_cause(row).is_some() {
        return None;
    }
    let total = total_before(reached, row)?.saturating_add(u64::from(row.prob));
    if total > 1_001_000 {
        return None;
    }
    Some(Reached {
        areaperil: row.areaperil,
        intensity: row.intensity,
        total,
    })
}

/// Whether rows stand by rising areaperil and then intensity, and none is refused.
pub(crate) fn rise_unrefused(rows: &[FootRow]) -> bool
    ensures fine { result ≡ true → first_refused_row rows.now ≡ None }
    ensures within { result ≡ true → (areaperil : ℕ) → areaperil_total rows.now areaperil ≤ 1001000 }
{
    let mut reached = Reached {
        areaperil: 0,
        intensity: 0,
        total: 0,
    };
    for row in rows {
        match reached_with(&reached, row) {
            Some(next) => reached = next,
            None => return false,
        }
    }
    true
}
