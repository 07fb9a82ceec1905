//! The types of this crate may be sent to threads and shared by them.
//! The rule: docs/ARCHITECTURE.md, "What threads share".
use crate::bytes::Bytes;
use crate::moments::MeanSd;
use crate::row::Row;
use crate::sharing::ShareOut;

/// Takes what may be sent to threads and shared by them.
fn is_shared<T: Send + Sync>(_: &T) {}

/// Each type once.
pub(crate) fn are_shared(bytes: &Bytes, row: &Row, moments: &MeanSd, sharing: &ShareOut) {
    is_shared(bytes);
    is_shared(row);
    is_shared(moments);
    is_shared(sharing);
}
