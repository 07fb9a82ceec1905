//! The check of the footprint rows of an event.
//! The rules: docs/CHECKS.md, "Footprint rows of an event".
ghost use Rattle.std.specs.Prelude.{◌≡◌, ◌≤◌, ℕ, List, [], ◌∷◌, ◌++◌, None, Some, OnOk, IfOk, IfErr};
ghost use Rattle.kt_rec.specs.FootRows.{areaperil_total, field_cause, row_cause, first_refused_row};
ghost use Rattle.kt_model.specs.Seen.{IsSeen};
ghost use Rattle.kt_rec.specs.declared.hazard.FootRow.{FootRow};

use crate::plain_rows::first_held;
use crate::rising_rows::rise_unrefused;
use kt_rec::{FootRow, ModelStop, RowCause};
use std::alloc::{AllocError, Global};
use std::collections::{HashMap, HashSet};

/// Why the fields of a row are refused.
pub(crate) fn field_cause(row: &FootRow) -> Option<RowCause>
    ensures value { result ≡ field_cause row.now }
{
    if row.areaperil < 1 || row.areaperil > 2_147_483_647 {
        return Some(RowCause::Areaperil);
    }
    if row.intensity < 1 || row.intensity > 10_000 {
        return Some(RowCause::Intensity);
    }
    if row.prob > 1_000_000 {
        return Some(RowCause::Prob);
    }
    None
}

/// What was seen of the rows so far: the pairs of areaperil and intensity, and the probabilities of each areaperil together.
#[derive(Drop)]
struct Seen {
    pairs: HashSet<(u32, u32)>,
    totals: HashMap<u32, u64>,
}

impl Seen {
    /// Nothing was seen, with room for so many rows.
    fn new(alloc: Global, rows: usize) -> Result<Seen, AllocError>
        ensures value { IfOk result (IsSeen []) }
    {
        Ok(Seen {
            pairs: HashSet::with_capacity(alloc, rows)?,
            totals: HashMap::with_capacity(alloc, rows)?,
        })
    }

    /// Sees one more row, and says why it is refused behind those seen so far.
    fn see(&mut self, row: &FootRow) -> Result<Option<RowCause>, AllocError>
        ensures cause { (rows : List FootRow) → IsSeen rows self.old → IfOk result (λ cause. cause ≡ row_cause rows row.now) }
        ensures seen { (rows : List FootRow) → IsSeen rows self.old → IfOk result (λ cause. cause ≡ None → IsSeen (rows ++ row.now ∷ []) self.new) }
    {
        if let Some(cause) = field_cause(row) {
            return Ok(Some(cause));
        }
        if !self.pairs.insert((row.areaperil, row.intensity))? {
            return Ok(Some(RowCause::Twice));
        }
        let before = self.totals.get(&row.areaperil).copied().unwrap_or(0);
        let total = before.saturating_add(u64::from(row.prob));
        if total > 1_001_000 {
            return Ok(Some(RowCause::Sum));
        }
        self.totals.insert(row.areaperil, total)?;
        Ok(None)
    }
}

/// The first row that is refused, with its cause. An error is want of memory for what was seen of the rows.
fn first_seen(alloc: Global, rows: &[FootRow]) -> Result<Option<ModelStop>, AllocError>
    ensures first { IfOk result (λ found. found ≡ first_refused_row rows.now) }
    ensures within { IfOk result (λ found. found ≡ None → (areaperil : ℕ) → areaperil_total rows.now areaperil ≤ 1001000) }
{
    let mut seen = Seen::new(alloc, rows.len())?;
    for (index, row) in rows.iter().enumerate() {
        if let Some(cause) = seen.see(row)? {
            return Ok(Some(ModelStop::Row {
                row: index as u64 + 1,
                cause,
            }));
        }
    }
    Ok(None)
}

/// The first row that is refused, with its cause, whatever memory there is.
fn first_refused(alloc: Global, rows: &[FootRow]) -> Option<ModelStop>
    ensures first { result ≡ first_refused_row rows.now }
    ensures within { result ≡ None → (areaperil : ℕ) → areaperil_total rows.now areaperil ≤ 1001000 }
{
    match first_seen(alloc, rows) {
        Ok(found) => found,
        Err(_) => first_held(rows),
    }
}

/// Judges the rows of an event's footprint: the first that is refused, with its cause. Rows by rising areaperil and then intensity are
/// judged without memory, and so are others where memory is wanting for what was seen of them: it is never the answer.
pub fn check_rows(alloc: Global, rows: &[FootRow]) -> Result<(), ModelStop>
    ensures ok { OnOk result (first_refused_row rows.now ≡ None) }
    ensures within { OnOk result ((areaperil : ℕ) → areaperil_total rows.now areaperil ≤ 1001000) }

    ensures refused { IfErr result (λ stop. first_refused_row rows.now ≡ Some stop) }
{
    if rise_unrefused(rows) {
        return Ok(());
    }
    match first_refused(alloc, rows) {
        Some(stop) => Err(stop),
        None => Ok(()),
    }
}
