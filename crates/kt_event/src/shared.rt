//! The types of this crate may be sent to threads and shared by them.
//! The rule: docs/ARCHITECTURE.md, "What threads share".
use crate::plan::Plan;
use kt_rec::ModelStop;

/// Takes what may be sent to threads and shared by them.
fn is_shared<T: Send + Sync>(_: &T) {}

/// Each type once.
pub(crate) fn are_shared(plan: &Plan, stop: &ModelStop) {
    is_shared(plan);
    is_shared(stop);
}
