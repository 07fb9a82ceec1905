//! Amounts that are added to a lane.
//! The rules: docs/FINANCIAL_MODULE.md, "Levels".
ghost use Rattle.std.specs.Prelude.{◌≡◌, ℕ, ◌+◌, ◌<◌, ◌^◌, length, slice_index};
ghost use Rattle.kt_lanes.specs.Lanes.{IsLane};

use crate::lane::add_to;

/// Amounts in cents, sidx by sidx, that can be added to those of a lane.
pub trait Amounts {
    ghost use Rattle.std.specs.Prelude.{ℕ};

    /// Which amounts there are.
    ghost IsGood: { Self → Type 0 };

    /// For how many sidx they are.
    ghost width: { Self → ℕ };

    /// That of a sidx.
    ghost amount: { Self → ℕ → ℕ };

    /// Adds them to those of a lane.
    fn add_to(&self, lane: &mut [u64])
        requires good { IsGood self.now }
        requires wide { length lane.old ≡ width self.now }
        requires few { (k : ℕ) → k < width self.now → slice_index lane.old k + amount self.now k < 2 ^ 64 }
        ensures value { IsLane (width self.now) (λ k. slice_index lane.old k + amount self.now k) lane.new };
}

/// The amounts of a lane.
#[derive(Clone, Copy)]
pub struct OneLane<'a> {
    /// The lane.
    pub lane: &'a [u64],
}

impl<'a> Amounts for OneLane<'a> {
    ghost use Rattle.std.specs.Prelude.{⊤, length, slice_index};

    ghost IsGood = { λ _. ⊤ };

    ghost width = { λ one. length one.lane.now };

    ghost amount = { λ one. slice_index one.lane.now };

    fn add_to(&self, lane: &mut [u64]) {
        add_to(lane, self.lane);
    }
}
