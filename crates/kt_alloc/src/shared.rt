//! The types of this crate may be sent to threads and shared by them.
//! The rule: docs/ARCHITECTURE.md, "What threads share".
use crate::index::OutputIndex;
use crate::made::{Insured, InsuredLanes};
use kt_block::LayerSum;

/// Takes what may be sent to threads and shared by them.
fn is_shared<T: Send + Sync>(_: &T) {}

/// Each type once.
pub(crate) fn are_shared(
    outputs: &OutputIndex,
    made: &Insured,
    lanes: &InsuredLanes,
    sum: &LayerSum,
) {
    is_shared(outputs);
    is_shared(made);
    is_shared(lanes);
    is_shared(sum);
}
