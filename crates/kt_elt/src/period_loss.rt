//! The rows of a summary record in the period loss table: two for each occurrence of its event.
//! The rules: docs/OUTPUTS.md, "Period loss table".
ghost use Rattle.std.specs.Prelude.{◌≡◌, ◌+◌, ◌≤◌, ℕ, ◌++◌, length, take, OnOk, OnErr};
ghost use Rattle.kt_elt.specs.Losses.{FitsSamples, analytical_moments, sample_moments};
ghost use Rattle.kt_elt.specs.PeriodLoss.{date_columns, plt_row, period_loss_rows, period_losses};

use crate::moments::{LossMoments, loss_moments};
use crate::row_type::RowType;
use kt_money::{Bytes, MeanSd, OutOfMemory, ROW_BYTES, Row};
use kt_rec::Occurrence;
use kt_stream::SummaryRecord;

/// The most bytes that one row has.
const PLT_ROW_BYTES: usize = 200;

/// The most bytes that the date in a row has, with the LF behind it.
const DATE_BYTES: usize = 63;

/// Appends the two rows of a record for an occurrence. An error is want of memory.
/// The record has `samples` samples, as that of `elt_text`.
pub fn plt_text(
    out: &mut Bytes,
    samples: u32,
    entry: &SummaryRecord,
    at: &Occurrence,
) -> Result<(), OutOfMemory>
    requires { FitsSamples samples entry.now.pairs }

    ensures ok { OnOk result (out.new ≡ out.old ++ period_loss_rows samples entry.now at.now) }

    ensures unchanged { OnErr result (out.new ≡ out.old) }
{
    let moments = loss_moments(samples, entry.pairs.as_slice());
    append_rows(out, samples, moments, entry, at)
}

/// Appends the rows of a record for each of the occurrences in turn; its means and deviations are taken once. An error is
/// want of memory; the rows of the first occurrences stand then.
/// The record has `samples` samples, as that of `elt_text`.
pub fn plt_record_text(
    out: &mut Bytes,
    samples: u32,
    entry: &SummaryRecord,
    occurrences: &[Occurrence],
) -> Result<(), OutOfMemory>
    requires { FitsSamples samples entry.now.pairs }

    ensures ok { OnOk result (out.new ≡ out.old ++ period_losses samples entry.now occurrences.now) }

    ensures front { OnErr result ((count : ℕ) × (out.new ≡ out.old ++ period_losses samples entry.now (take count occurrences.now))) }
{
    let moments = loss_moments(samples, entry.pairs.as_slice());
    for at in occurrences {
        append_rows(out, samples, moments, entry, at)?;
    }
    Ok(())
}

/// Appends the two rows of a record with these means and deviations for an occurrence, or neither.
fn append_rows(
    out: &mut Bytes,
    samples: u32,
    moments: LossMoments,
    entry: &SummaryRecord,
    at: &Occurrence,
) -> Result<(), OutOfMemory>
    requires analytical { moments.analytical ≡ analytical_moments entry.now.pairs }
    requires sample { moments.sample ≡ sample_moments samples entry.now.pairs }

    ensures ok { OnOk result (out.new ≡ out.old ++ period_loss_rows samples entry.now at.now) }

    ensures unchanged { OnErr result (out.new ≡ out.old) }
{
    let before = out.len();
    append_row(out, RowType::Analytical, moments.analytical, entry, at)?;
    if let Err(refusal) = append_row(out, RowType::Sample, moments.sample, entry, at) {
        out.truncate(before);
        return Err(refusal);
    }
    Ok(())
}

/// Appends one row of a record for an occurrence.
fn append_row(
    out: &mut Bytes,
    kind: RowType,
    moments: MeanSd,
    entry: &SummaryRecord,
    at: &Occurrence,
) -> Result<(), OutOfMemory>
    ensures ok { OnOk result (out.new ≡ out.old ++ plt_row kind moments entry.now at.now) }

    ensures unchanged { OnErr result (out.new ≡ out.old) }
{
    let mut row = Row::new();
    put_plt_row(&mut row, kind, moments, entry, at);
    out.append(row.as_slice())
}

/// Puts one row of a record for an occurrence in front.
fn put_plt_row(
    row: &mut Row,
    kind: RowType,
    moments: MeanSd,
    entry: &SummaryRecord,
    at: &Occurrence,
)
    requires { length row.old + PLT_ROW_BYTES ≤ ROW_BYTES }
    ensures value { row.new ≡ plt_row kind moments entry.now at.now ++ row.old }
{
    put_date(row, at);
    row.put_byte(b',');
    row.put_money(entry.exposure);
    row.put_byte(b',');
    row.put_money(moments.sd);
    row.put_byte(b',');
    row.put_money(moments.mean);
    row.put_byte(b',');
    row.put_count(u64::from(at.period_no));
    row.put_byte(b',');
    row.put_count(u64::from(entry.event));
    row.put_byte(b',');
    row.put_byte(kind.digit());
    row.put_byte(b',');
    row.put_count(u64::from(entry.summary));
}

/// Puts the date of an occurrence in front, the last columns of a row.
fn put_date(row: &mut Row, at: &Occurrence)
    requires { length row.old + DATE_BYTES ≤ ROW_BYTES }
    ensures value { row.new ≡ date_columns at.now ++ row.old }
    ensures room { length row.new ≤ length row.old + DATE_BYTES }
{
    row.put_byte(b'\n');
    row.put_count(u64::from(at.occ_day));
    row.put_byte(b',');
    row.put_count(u64::from(at.occ_month));
    row.put_byte(b',');
    row.put_count(u64::from(at.occ_year));
}
