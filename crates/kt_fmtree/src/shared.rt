//! The types of this crate may be sent to threads and shared by them.
//! The rule: docs/ARCHITECTURE.md, "What threads share".
use crate::levels::Levels;
use crate::lists::Lists;
use crate::programme::Programme;

/// Takes what may be sent to threads and shared by them.
fn is_shared<T: Send + Sync>(_: &T) {}

/// Each type once.
pub(crate) fn are_shared(programme: &Programme, levels: &Levels, lists: &Lists<u32>) {
    is_shared(programme);
    is_shared(levels);
    is_shared(lists);
}
