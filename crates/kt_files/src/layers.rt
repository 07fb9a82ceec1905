//! The table of the layers: their policy losses, and what these were shared out to.
//! The rules: docs/OUTPUTS.md, "Layers".
ghost use Rattle.std.specs.Prelude.{◌≡◌, ◌++◌, OnErr, OnOk};
ghost use Rattle.std.specs.List.{flat_map};
ghost use Rattle.kt_files.specs.Parts.{layer_row, layers_heading_text};
ghost use Rattle.kt_stream.specs.Write.{BeginsWith};

use kt_block::LayerSum;
use kt_money::{Bytes, OutOfMemory, Row};

/// The first line of the table of the layers, with its LF: the names of the columns.
pub(crate) fn layers_heading() -> &'static [u8]
    ensures { result.now ≡ layers_heading_text }
{
    b"event_id,agg_id,layer_id,policy_loss,allocated_loss\n"
}

/// Appends the row of a layer. An error is want of memory.
fn push_layer(out: &mut Bytes, sum: LayerSum) -> Result<(), OutOfMemory>
    ensures ok { OnOk result (out.new ≡ out.old ++ layer_row sum) }
    ensures unchanged { OnErr result (out.new ≡ out.old) }
{
    let mut row = Row::new();
    row.put_byte(b'\n');
    row.put_money(sum.allocated);
    row.put_byte(b',');
    row.put_money(sum.policy);
    row.put_byte(b',');
    row.put_count(u64::from(sum.layer));
    row.put_byte(b',');
    row.put_count(u64::from(sum.agg));
    row.put_byte(b',');
    row.put_count(u64::from(sum.event));
    out.append(row.as_slice())
}

/// Appends the rows of layers. An error is want of memory.
pub(crate) fn push_layers(out: &mut Bytes, layers: &[LayerSum]) -> Result<(), OutOfMemory>
    ensures ok { OnOk result (out.new ≡ out.old ++ flat_map layer_row layers.now) }
    ensures kept { OnErr result (BeginsWith out.old out.new) }
{
    for sum in layers {
        push_layer(out, *sum)?;
    }
    Ok(())
}
