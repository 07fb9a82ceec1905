//! The types of this crate may be sent to threads and shared by them.
//! The rule: docs/ARCHITECTURE.md, "What threads share".
use crate::carry::Carry;
use crate::profile::{BadProfile, Profile};

/// Takes what may be sent to threads and shared by them.
fn is_shared<T: Send + Sync>(_: &T) {}

/// Each type once.
pub(crate) fn are_shared(carry: &Carry, profile: &Profile, bad: &BadProfile) {
    is_shared(carry);
    is_shared(profile);
    is_shared(bad);
}
