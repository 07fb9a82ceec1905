//! Which row of cells a loss falls to, and the key by which the row is found.
//! The rules: docs/CALCULATION.md, "Periods".
ghost use Rattle.std.specs.Prelude.{◌≡◌};
ghost use Rattle.kt_period_cells.specs.Rows.{index_key};

use kt_rec::Perspective;

/// Which row: what one summary of a perspective and set has in one period.
#[derive(Clone, Copy)]
pub(crate) struct RowKey {
    pub(crate) perspective: Perspective,
    pub(crate) set: u32,
    pub(crate) summary: u32,
    pub(crate) period: u32,
}

/// The key of a row in the index: its perspective as a number, 0 for ground-up, 1 for insured and 2 for net losses.
#[derive(Clone, Copy, PartialEq, Eq, Hash)]
pub(crate) struct IndexKey {
    perspective: u32,
    set: u32,
    summary: u32,
    period: u32,
}

/// The key of a row in the index.
pub(crate) fn index_key(row: RowKey) -> IndexKey
    ensures value { result ≡ index_key row }
{
    let perspective = match row.perspective {
        Perspective::Gul => 0,
        Perspective::Il => 1,
        Perspective::Ri => 2,
    };
    IndexKey {
        perspective,
        set: row.set,
        summary: row.summary,
        period: row.period,
    }
}
