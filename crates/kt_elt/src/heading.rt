//! The headings of the event loss table and of the period loss table.
//! The rules: docs/OUTPUTS.md, "Event loss table" and "Period loss table".
ghost use Rattle.std.specs.Prelude.{◌≡◌};
ghost use Rattle.kt_elt.specs.EventLoss.{elt_heading_text};
ghost use Rattle.kt_elt.specs.PeriodLoss.{plt_heading_text};

/// The first line of an event loss table, with its LF: the names of the columns.
pub fn elt_heading() -> &'static [u8]
    ensures value { result.now ≡ elt_heading_text }
{
    b"summary_id,type,event_id,mean,standard_deviation,exposure_value\n"
}

/// The first line of a period loss table, with its LF: the names of the columns.
pub fn plt_heading() -> &'static [u8]
    ensures value { result.now ≡ plt_heading_text }
{
    b"summary_id,type,event_id,period_no,mean,standard_deviation,exposure_value,occ_year,occ_month,occ_day\n"
}
