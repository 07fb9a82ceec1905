//! The types of this crate may be sent to threads and shared by them.
//! The rule: docs/ARCHITECTURE.md, "What threads share".
use crate::schema::Schema;
use kt_cells::{TableStop, Values};

/// Takes what may be sent to threads and shared by them.
fn is_shared<T: Send + Sync>(_: &T) {}

/// Each type once; a schema of any width is shared as one of a single column is.
pub(crate) fn are_shared(schema: &Schema<1>, values: &Values<1>, stop: &TableStop) {
    is_shared(schema);
    is_shared(values);
    is_shared(stop);
}
