//! What the fold holds, and what it takes, may be sent to threads and shared by them.
//! The rule: docs/ARCHITECTURE.md, "What threads share".
use crate::fold::{FoldStop, RunFold};
use crate::part::PartBlock;
use crate::ready::ReadyPart;

/// Takes what may be sent to threads and shared by them.
fn is_shared<T: Send + Sync>(_: &T) {}

/// Each type once.
pub(crate) fn are_shared(fold: &RunFold<'_>, part: &PartBlock, ready: &ReadyPart, stop: &FoldStop) {
    is_shared(fold);
    is_shared(part);
    is_shared(ready);
    is_shared(stop);
}
