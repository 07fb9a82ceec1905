//! What the curves of the summary sets of a run share, made by hands that are busy side by side.
//! The rules: docs/OUTPUTS.md, "Exceedance curve tables"; docs/CALCULATION.md, "Kinds of exceedance curves".
ghost use Rattle.std.specs.Prelude.{◌≡◌, ◌<◌, ◌/◌, ℕ, List, length, All, IfOk, IfSome};
ghost use Rattle.kt_curve.specs.SetsOfCurves.{AreCurvesOf, AreSomeCurves};
ghost use Rattle.kt_files.specs.Endings.{AreHandCurves};
ghost use Rattle.kt_cell.specs.Standing.{KeptCells};
ghost use Rattle.kt_tables.specs.Lookups.{return_periods_of};

use crate::sets::run_sets;
use kt_block::SummarySet;
use kt_curve::SetCurves;
use kt_money::OutOfMemory;
use kt_outputs::{calls_beside, claim};
use kt_period_cells::Cells;
use kt_rec::Perspective;
use kt_tables::Portfolio;
use std::alloc::Global;
use std::sync::atomic::AtomicUsize;
use std::thread::Threads;

/// What a hand has made; or an error, where memory was wanting.
type Hand<'a> = Result<Vec<SetCurves<'a>>, OutOfMemory>;

/// What the curves of a summary set share, of its maxima or its totals, at the return periods of the portfolio. An error is want of
/// memory.
pub(crate) fn curves_of<'a>(
    portfolio: &'a Portfolio,
    cells: &'a Cells,
    set: SummarySet,
    maxima: bool,
) -> Result<SetCurves<'a>, OutOfMemory>
    ensures { IfOk result (AreCurvesOf cells.now set.perspective set.set maxima (return_periods_of portfolio.now.rows)) }
{
    portfolio.is_valid();
    let returns = portfolio.return_periods();
    SetCurves::new(cells, set.perspective, set.set, maxima, returns)
}

/// What the curves at a place share: those of the totals of the first set, those of its maxima, and so on. An error is want of memory.
fn curves_at<'a>(
    portfolio: &'a Portfolio,
    cells: &'a Cells,
    sets: &[SummarySet],
    place: usize,
) -> Result<SetCurves<'a>, OutOfMemory>
    requires { place / 2 < length sets.now }
    ensures { IfOk result (AreSomeCurves cells.now (return_periods_of portfolio.now.rows)) }
{
    curves_of(portfolio, cells, sets[place / 2], place % 2 == 1)
}

/// What one hand makes: the places that it claims, one after the other, until each is claimed.
fn hand_curves<'a>(
    alloc: Global,
    portfolio: &'a Portfolio,
    cells: &'a Cells,
    sets: &[SummarySet],
    claimed: &AtomicUsize,
) -> Hand<'a>
    ensures { AreHandCurves cells.now (return_periods_of portfolio.now.rows) result }
{
    let count = 2 * sets.len();
    let mut made = Vec::new(alloc);
    for _turn in 0..count {
        let Some(place) = claim(claimed, count) else {
            break;
        };
        let own = curves_at(portfolio, cells, sets, place)?;
        made.push(own)?;
    }
    Ok(made)
}

/// What all hands have made. An error is want of memory, here or of a hand.
fn gathered<'a>(alloc: Global, mut hands: Vec<Hand<'a>>) -> Hand<'a>
    ensures { (kept : KeptCells) (returns : List ℕ) → All (AreHandCurves kept returns) hands.entry.items → AreHandCurves kept returns result }
{
    let mut all = Vec::new(alloc);
    while let Some(hand) = hands.pop() {
        let mut made = hand?;
        all.append(&mut made)?;
    }
    Ok(all)
}

/// What the curves of the summary sets of a run up to a last perspective share, of totals and of maxima, in no order. They are made by as
/// many hands as `workers` says, each in a thread of its own where one can be made: a hand that is done claims the next set and measure.
/// An error is want of memory.
pub fn shared_curves<'a, R: Threads + Sync>(
    rt: &R,
    alloc: Global,
    portfolio: &'a Portfolio,
    cells: &'a Cells,
    last: Perspective,
    workers: usize,
) -> Result<Vec<SetCurves<'a>>, OutOfMemory>
    ensures { AreHandCurves cells.now (return_periods_of portfolio.now.rows) result }
{
    let mut found = run_sets(alloc, portfolio, last)?;
    // The last place is claimed first: so the set with the most rows is not what all hands wait for.
    found.sort_by_key(|set| cells.share_of(set.perspective, set.set))?;
    let sets = found.as_slice();
    let claimed = AtomicUsize::new(0);
    let hands = calls_beside(
        rt,
        alloc,
        workers.min(2 * sets.len()),
        &|_hand| { hand_curves(alloc, portfolio, cells, sets, &claimed) },
    )?;
    gathered(alloc, hands)
}

/// Those of a summary set, and of its maxima or its totals, among others; `None` where they are not there.
pub(crate) fn find<'a>(
    curves: &'a [SetCurves<'a>],
    set: SummarySet,
    maxima: bool,
) -> Option<&'a SetCurves<'a>>
    ensures { (kept : KeptCells) (returns : List ℕ) → All (AreSomeCurves kept returns) curves.now → IfSome result (λ found. AreCurvesOf kept set.perspective set.set maxima returns found.now) }
{
    for one in curves {
        if one.are_of(set.perspective, set.set, maxima) {
            return Some(one);
        }
    }
    None
}
