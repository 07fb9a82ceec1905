//! The types of this crate may be sent to threads and shared by them.
//! The rule: docs/ARCHITECTURE.md, "What threads share".
use crate::need::{CheckStop, Need, Refusal};
use crate::unit_table::UnitTable;

/// Takes what may be sent to threads and shared by them.
fn is_shared<T: Send + Sync>(_: &T) {}

/// Each type once.
pub(crate) fn are_shared(need: &Need, refusal: &Refusal, stop: &CheckStop, units: &UnitTable<u32>) {
    is_shared(need);
    is_shared(refusal);
    is_shared(stop);
    is_shared(units);
}
