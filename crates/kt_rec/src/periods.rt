//! When events occur, and the return periods of a loss curve.
//! The rule: docs/TABLES.md, "Columns".

/// A row of `occurrence`: an event occurs in a period, on a date.
#[derive(Clone, Copy)]
pub struct Occurrence {
    /// The event.
    pub event_id: u32,
    /// The period.
    pub period_no: u32,
    /// The year.
    pub occ_year: u32,
    /// The month.
    pub occ_month: u32,
    /// The day.
    pub occ_day: u32,
}

/// A row of `returnperiods`.
#[derive(Clone, Copy)]
pub struct ReturnPeriod {
    /// The return period, in periods.
    pub return_period: u32,
}
