//! The word of a round may be sent to threads and shared by them, a pass may be sent, and the slots both where their blocks may.
//! The rule: docs/ARCHITECTURE.md, "What threads share".
use crate::claims::{Claims, Pass};
use crate::reorder::Reorder;

/// Takes what may be sent to threads and shared by them.
fn is_shared<T: Send + Sync>(_: &T) {}

/// Takes what may be sent to threads.
fn is_sent<T: Send>(_: &T) {}

/// Each type once.
pub(crate) fn are_shared(claims: &Claims, pass: &Pass, reorder: &Reorder<u32>) {
    is_shared(claims);
    is_sent(pass);
    is_shared(reorder);
}
