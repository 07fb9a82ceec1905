//! The sums of layers, from the rows of the samples.
//! The rule: docs/FINANCIAL_MODULE.md, "Insured losses".
ghost use Rattle.std.specs.Prelude.{◌≡◌, ℕ, ◌<◌, ◌++◌, [], length, All, IfOk, OnOk};
ghost use Rattle.std.specs.List.{cons_option};
ghost use Rattle.kt_levels.specs.Table.{HasAmounts};
ghost use Rattle.kt_alloc.specs.Table.{sum_in, sums_in};

use kt_block::LayerSum;
use kt_levels::{Table, TopLayer};
use kt_stream::Records;
use std::alloc::{AllocError, Global};

/// Appends the sum of the layer in a place, where it has a policy loss. All of it is shared out.
fn push_sum(
    event: u32,
    table: &Table,
    one: TopLayer,
    place: usize,
    made: &mut Vec<LayerSum>,
) -> Result<(), AllocError>
    requires place { All (HasAmounts place) table.now }
    ensures ok { OnOk result (made.new.items ≡ made.old.items ++ cons_option (sum_in event table.now one place) []) }
{
    let policy = table.sampled(place);
    if policy > 0 {
        made.push(LayerSum {
            event,
            agg: one.top,
            layer: one.layer,
            policy,
            allocated: policy,
        })?;
    }
    Ok(())
}

/// The sums of layers, in their order.
pub(crate) fn sums_of(
    alloc: Global,
    event: u32,
    table: &Table,
    layers: &[TopLayer],
) -> Result<Records<LayerSum>, AllocError>
    requires places { (place : ℕ) → place < length layers.now → All (HasAmounts place) table.now }
    ensures value { IfOk result (λ made. made ≡ sums_in event table.now 0 layers.now) }
{
    let mut made = Vec::new(alloc);
    for (place, one) in layers.iter().enumerate() {
        push_sum(event, table, *one, place, &mut made)?;
    }
    Ok(Records::from_vec(made))
}
