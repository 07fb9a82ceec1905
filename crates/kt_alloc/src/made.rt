//! What the insured losses of a run are.
//! The rule: docs/FINANCIAL_MODULE.md, "Insured losses".

use kt_block::LayerSum;
use kt_runs::LossLanes;
use kt_stream::{LossRecord, Records};

/// The insured losses of a run.
#[derive(Drop)]
pub struct Insured {
    /// The records of the outputs, by rising output.
    pub records: Records<LossRecord>,
    /// The sums of the layers, by top and then by layer.
    pub layers: Records<LayerSum>,
}

/// The insured losses of a run, by lanes.
#[derive(Drop)]
pub struct InsuredLanes {
    /// The losses of the outputs, by rising output.
    pub losses: LossLanes,
    /// The sums of the layers, by top and then by layer.
    pub layers: Records<LayerSum>,
}
