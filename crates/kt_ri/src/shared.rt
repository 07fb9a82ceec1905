//! The types of this crate may be sent to threads and shared by them.
//! The rule: docs/ARCHITECTURE.md, "What threads share".
use crate::ceding::CedingProgramme;
use crate::reinsured::Reinsured;

/// Takes what may be sent to threads and shared by them.
fn is_shared<T: Send + Sync>(_: &T) {}

/// Each type once.
pub(crate) fn are_shared(stage: &CedingProgramme, made: &Reinsured) {
    is_shared(stage);
    is_shared(made);
}
