//! The curves of one set, of the totals or the maxima, which share their work.
//! The rules: docs/CALCULATION.md, "Kinds of exceedance curves"; docs/OUTPUTS.md, "Exceedance curve tables".
ghost use Rattle.std.specs.Prelude.{◌≡◌, ◌≤◌, ◌↔◌, ◌++◌, ℕ, List, All, IfOk, IsTrue, OnOk, OnErr};
ghost use Rattle.kt_rec.specs.declared.perspective.Perspective.{Perspective};
ghost use Rattle.kt_cell.specs.Losses.{Added, all_losses};
ghost use Rattle.kt_cell.specs.Standing.{KeptCells, StandsFor};
ghost use Rattle.kt_curve.specs.Exceedance.{exceedance_rows, takes_maxima};
ghost use Rattle.kt_curve.specs.SetsOfCurves.{AreCurvesOf, IsMeasure};

use crate::lec::curve_text;
use crate::sample_losses::SampleLosses;
use kt_money::{Bytes, OutOfMemory};
use kt_period_cells::{Cells, SetCells};
use kt_rec::{Curve, Perspective};
use std::alloc::Global;
use std::marker::Model;

/// What the curves of a perspective and set share, of the totals of its cells or of their maxima: its cells, gathered once, and the losses of
/// the ranks that the curves ask for, in each sample. These have 16 bytes for each return period of each sample of each summary. Contracts
/// see the cells, whether the maxima are taken, and the return periods.
#[derive(Drop)]
pub struct SetCurves<'a> {
    alloc: Global,
    cells: SetCells<'a>,
    maxima: bool,
    returns: &'a [u32],
    samples: SampleLosses,
}

impl<'a> Model for SetCurves<'a> {
    ghost use Rattle.kt_curve.specs.SetsOfCurves.{AreShared, KeptCurves};

    ghost Value = { KeptCurves };

    ghost view = { λ c. record { cells = c.cells; maxima = c.maxima; returns = c.returns.now } };

    ghost invariant = { λ c. AreShared c.cells c.maxima c.returns.now c.samples };
}

impl<'a> SetCurves<'a> {
    /// What the curves of a perspective and set share, of the maxima or the totals, at these return periods, each above 0. An error is
    /// want of memory.
    pub fn new(
        cells: &'a Cells,
        perspective: Perspective,
        set: u32,
        maxima: bool,
        returns: &'a [u32],
    ) -> Result<Self, OutOfMemory>
        requires { All (λ period. 1 ≤ period) returns.now }
        ensures value { IfOk result (AreCurvesOf cells.now perspective set maxima returns.now) }
    {
        let alloc = cells.alloc();
        let own = cells.of_set(perspective, set)?;
        let samples = SampleLosses::of_set(alloc, &own, maxima, returns)?;
        Ok(SetCurves {
            alloc,
            cells: own,
            maxima,
            returns,
            samples,
        })
    }

    /// Whether these are of a perspective and set, and of its maxima or its totals.
    pub fn are_of(&self, perspective: Perspective, set: u32, maxima: bool) -> bool
        ensures value { IsTrue result ↔ IsMeasure perspective set maxima self.now }
    {
        self.cells.perspective == perspective && self.cells.set == set && self.maxima == maxima
    }

    /// Appends the rows of one of the curves, as `lec_text` does. An error is want of memory, and `out` is then as it was.
    pub fn append(&self, out: &mut Bytes, curve: Curve) -> Result<(), OutOfMemory>
        ensures ok { (kept : KeptCells) (perspective : Perspective) (set : ℕ) (returns : List ℕ) (history : List Added) → AreCurvesOf kept perspective set (takes_maxima curve) returns self.now → StandsFor history kept → OnOk result (out.new ≡ out.old ++ exceedance_rows curve perspective set kept.periods kept.samples (all_losses history) returns) }
        ensures unchanged { OnErr result (out.new ≡ out.old) }
    {
        let text = curve_text(
            self.alloc,
            &self.cells,
            &self.samples,
            self.maxima,
            curve,
            self.returns,
        )?;
        out.append(text.as_slice())
    }
}
