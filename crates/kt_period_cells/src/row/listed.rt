//! Cells that are listed by rising sample.
//! The rules: docs/CALCULATION.md, "Periods".
ghost use Rattle.std.specs.Prelude.{◌≡◌, IfOk, IfErr};
ghost use Rattle.kt_period_cells.specs.RowCells.{IsRising, IsAt, IsGap, cell_in};

use kt_cell::Cell;

/// Where the cell of a sample stands, or where it would go. It is looked for first at `next`, and then at the end.
pub(super) fn place(cells: &[(u32, Cell)], next: usize, sample: u32) -> Result<usize, usize>
    requires { IsRising cells.now }
    ensures found { IfOk result (IsAt cells.now sample) }
    ensures absent { IfErr result (IsGap cells.now sample) }
{
    if next < cells.len() && cells[next].0 == sample {
        return Ok(next);
    }
    match cells.last() {
        Some(last) if sample <= last.0 => searched(cells, sample),
        _ => Err(cells.len()),
    }
}

/// The same by halving.
fn searched(cells: &[(u32, Cell)], sample: u32) -> Result<usize, usize>
    requires { IsRising cells.now }
    ensures found { IfOk result (IsAt cells.now sample) }
    ensures absent { IfErr result (IsGap cells.now sample) }
{
    cells.binary_search_by_key(&sample, |&(one, _)| one)
}

/// The cell of a sample.
pub(super) fn listed_cell(cells: &[(u32, Cell)], next: usize, sample: u32) -> Option<Cell>
    requires { IsRising cells.now }
    ensures value { result ≡ cell_in cells.now sample }
{
    match place(cells, next, sample) {
        Ok(at) => Some(cells[at].1),
        Err(_) => None,
    }
}
