//! The type of this crate may be sent to threads and shared by them.
//! The rule: docs/ARCHITECTURE.md, "What threads share".
use crate::block::EventBlock;

/// Takes what may be sent to threads and shared by them.
fn is_shared<T: Send + Sync>(_: &T) {}

/// The type.
pub(crate) fn are_shared(block: &EventBlock) {
    is_shared(block);
}
