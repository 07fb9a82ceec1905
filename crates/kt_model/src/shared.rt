//! The public types may be sent to threads and shared by them.
//! The rule: docs/ARCHITECTURE.md, "What threads share".
use crate::scratch::Scratch;
use kt_stream::{Cdf, Records};

/// Takes what may be sent to threads and shared by them.
fn is_shared<T: Send + Sync>(_: &T) {}

/// Each public type once.
pub(crate) fn are_shared(records: &Records<Cdf>, scratch: &Scratch) {
    is_shared(records);
    is_shared(scratch);
}
