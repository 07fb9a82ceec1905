//! What one event gives.
//! The rules: docs/CALCULATION.md, "Summaries"; docs/OUTPUTS.md, "Layers".

use crate::layer_sum::LayerSum;
use kt_rec::Perspective;
use kt_stream::{Records, SummaryRecord};

/// The summaries of an event in one set.
#[derive(Drop)]
pub struct Summaries {
    /// Whose losses they sum.
    pub perspective: Perspective,
    /// The summary set, from 1 to 9.
    pub set: u32,
    /// Their records, by rising summary.
    pub records: Records<SummaryRecord>,
}

/// What one event gives.
#[derive(Drop)]
pub struct EventBlock {
    /// The event.
    pub event: u32,
    /// The summaries of each set: perspective by perspective, and by rising set.
    pub summaries: Records<Summaries>,
    /// The sums of the layers, by top and then by layer; none without insured losses.
    pub layers: Records<LayerSum>,
}
