//! The types of this crate may be sent to threads and shared by them.
//! The rules: docs/STREAMS.md, "Readers".
use crate::cdf::CdfReader;
use crate::entry::{Bin, Bins, Cdf, LossRecord, Pair, Pairs, Placed, SummaryRecord};
use crate::kind::{Head, StreamKind};
use crate::loss::LossReader;
use crate::stop::{RecordCause, StreamStop};
use crate::summary::SummaryReader;

/// Names types that may be sent to threads and shared by them.
fn are_shared<T: Send + Sync>() {}

/// Each type once: the values of a stream, its readers, and what they answer.
pub(crate) fn streams_are_shared() {
    are_shared::<(StreamKind, Head, Pair, Pairs, SummaryRecord, LossRecord)>();
    are_shared::<(Bin, Bins, Cdf, CdfReader, SummaryReader, LossReader)>();
    are_shared::<(Placed<SummaryRecord>, StreamStop, RecordCause)>();
}
