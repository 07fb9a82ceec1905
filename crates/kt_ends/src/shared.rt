//! The types of this crate may be sent to threads and shared by them.
//! The rule: docs/ARCHITECTURE.md, "What threads share".
use crate::{Refusal, Status, ToolStop};

fn is_shared<T: Send + Sync>(_: &T) {}

/// Each type once.
fn are_shared(refusal: &Refusal, status: &Status, stop: &ToolStop) {
    is_shared(refusal);
    is_shared(status);
    is_shared(stop);
}
