//! The two rows of a summary record in the event loss table.
//! The rules: docs/OUTPUTS.md, "Event loss table".
ghost use Rattle.std.specs.Prelude.{◌≡◌, ◌+◌, ◌≤◌, ◌++◌, length, OnOk, OnErr};
ghost use Rattle.kt_elt.specs.Losses.{FitsSamples};
ghost use Rattle.kt_elt.specs.EventLoss.{elt_row, event_loss_rows};

use crate::moments::loss_moments;
use crate::row_type::RowType;
use kt_money::{Bytes, MeanSd, OutOfMemory, ROW_BYTES, Row};
use kt_stream::SummaryRecord;

/// The most bytes that one row has.
const ELT_ROW_BYTES: usize = 116;

/// Appends the two rows of a record. An error is want of memory.
/// The record has `samples` samples, from 1 to 1,000: its sidx rise and are at most `samples`, and each loss is at
/// most 10^16 cents. A sidx that is neither -1, -2 nor from 1 up is passed over.
pub fn elt_text(out: &mut Bytes, samples: u32, entry: &SummaryRecord) -> Result<(), OutOfMemory>
    requires { FitsSamples samples entry.now.pairs }

    ensures ok { OnOk result (out.new ≡ out.old ++ event_loss_rows samples entry.now) }

    ensures unchanged { OnErr result (out.new ≡ out.old) }
{
    let moments = loss_moments(samples, entry.pairs.as_slice());
    let mut rows = Row::new();
    put_elt_row(&mut rows, RowType::Sample, moments.sample, entry);
    put_elt_row(&mut rows, RowType::Analytical, moments.analytical, entry);
    out.append(rows.as_slice())
}

/// Puts one row of a record in front.
fn put_elt_row(row: &mut Row, kind: RowType, moments: MeanSd, entry: &SummaryRecord)
    requires { length row.old + ELT_ROW_BYTES ≤ ROW_BYTES }
    ensures value { row.new ≡ elt_row kind moments entry.now ++ row.old }
    ensures room { length row.new ≤ length row.old + ELT_ROW_BYTES }
{
    row.put_byte(b'\n');
    row.put_money(entry.exposure);
    row.put_byte(b',');
    row.put_money(moments.sd);
    row.put_byte(b',');
    row.put_money(moments.mean);
    row.put_byte(b',');
    row.put_count(u64::from(entry.event));
    row.put_byte(b',');
    row.put_byte(kind.digit());
    row.put_byte(b',');
    row.put_count(u64::from(entry.summary));
}
