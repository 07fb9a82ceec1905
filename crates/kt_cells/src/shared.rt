//! The types of this crate may be sent to threads and shared by them.
//! The rule: docs/ARCHITECTURE.md, "What threads share".
use crate::stop::TableStop;
use crate::values::Values;

/// Takes what may be sent to threads and shared by them.
fn is_shared<T: Send + Sync>(_: &T) {}

/// Each type once; values of any width are shared as those of one column are.
pub(crate) fn are_shared(values: &Values<1>, stop: &TableStop) {
    is_shared(values);
    is_shared(stop);
}
