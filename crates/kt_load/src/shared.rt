//! The types of this crate may be sent to threads and shared by them.
//! The rule: docs/ARCHITECTURE.md, "What threads share".
use crate::round_rows::RoundRows;
use crate::stop::LoadStop;

/// Takes what may be sent to threads and shared by them.
fn is_shared<T: Send + Sync>(_: &T) {}

/// Why tables are not loaded.
pub(crate) fn are_shared(stop: &LoadStop) {
    is_shared(stop);
}

/// The rows of a round.
pub(crate) fn rows_are_shared(rows: &RoundRows) {
    is_shared(rows);
}
