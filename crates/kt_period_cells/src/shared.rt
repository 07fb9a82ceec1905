//! The types of this crate may be sent to threads and shared by them.
//! The rule: docs/ARCHITECTURE.md, "What threads share".
use crate::cells::Cells;
use kt_cell::CellStop;

/// Names types that may be sent to threads and shared by them.
fn are_shared<T: Send + Sync>() {}

/// Each type once.
pub(crate) fn cells_are_shared() {
    are_shared::<(Cells, CellStop)>();
}
