//! A portfolio may be sent to threads and shared by them.
//! The rule: docs/ARCHITECTURE.md, "What threads share".
use crate::place::Place;
use crate::portfolio::Portfolio;

/// Takes what may be sent to threads and shared by them.
fn is_shared<T: Send + Sync>(_: &T) {}

/// Each public type once.
pub(crate) fn are_shared(portfolio: &Portfolio, place: &Place) {
    is_shared(portfolio);
    is_shared(place);
}
