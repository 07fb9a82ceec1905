//! The public types may be sent to threads and shared by them.
//! The rule: docs/ARCHITECTURE.md, "What threads share".
use crate::table::PeriodTable;

/// Takes what may be sent to threads and shared by them.
fn is_shared<T: Send + Sync>(_: &T) {}

/// Each public type once.
pub(crate) fn are_shared(table: &PeriodTable) {
    is_shared(table);
}
