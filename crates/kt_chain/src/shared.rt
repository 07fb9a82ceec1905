//! What workers hold may be sent to threads and shared by them.
//! The rule: docs/ARCHITECTURE.md, "What threads share".
use crate::work::RoundWork;
use kt_out::Open;

/// Takes what may be sent to threads and shared by them.
fn is_shared<T: Send + Sync>(_: &T) {}

/// Each type once.
pub(crate) fn are_shared(work: &RoundWork<'_, Open>) {
    is_shared(work);
}
