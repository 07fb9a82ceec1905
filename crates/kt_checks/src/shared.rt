//! The types of this crate, and those that it passes on, may be sent to threads and shared by them.
//! The rule: docs/ARCHITECTURE.md, "What threads share".
use crate::samples::SummaryCounts;
use kt_keys::{CheckStop, Need, Refusal};

/// Takes what may be sent to threads and shared by them.
fn is_shared<T: Send + Sync>(_: &T) {}

/// Each type once.
pub(crate) fn are_shared(need: &Need, refusal: &Refusal, stop: &CheckStop, counts: &SummaryCounts) {
    is_shared(need);
    is_shared(refusal);
    is_shared(stop);
    is_shared(counts);
}
