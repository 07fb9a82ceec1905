//! What a run of all stages computes.
//! The rules: docs/COMMANDS.md, "chain".
ghost use Rattle.std.specs.Prelude.{◌≡◌};
ghost use Rattle.kt_block.specs.Terms.{has_insured, has_net};

use kt_rec::Perspective;

/// What a run of all stages computes; how many workers it has and how they share the events is no part of it.
#[derive(Clone, Copy)]
pub struct Terms {
    /// The number of samples, from 1 to 1,000.
    pub samples: u32,
    /// Whether the losses of a coverage are cut to its insured value.
    pub cut: bool,
    /// The allocation rule of the insured losses, from 0 to 2; for net losses 1 or 2.
    pub rule: u32,
    /// The last perspective: ground-up losses come always, insured losses where it is theirs or that of net losses.
    pub last: Perspective,
    /// The number of reinsurance stages, from 1 to 9 for net losses, and 0 else.
    pub stages: u32,
}

/// A summary set of a perspective.
#[derive(Clone, Copy)]
pub struct SummarySet {
    /// Whose losses it sums.
    pub perspective: Perspective,
    /// Its number, from 1 to 9.
    pub set: u32,
}

impl Terms {
    /// Whether there are insured losses.
    pub fn has_insured(&self) -> bool
        ensures { result ≡ has_insured self.now.last }
    {
        match self.last {
            Perspective::Gul => false,
            Perspective::Il | Perspective::Ri => true,
        }
    }

    /// Whether there are net losses.
    pub fn has_net(&self) -> bool
        ensures { result ≡ has_net self.now.last }
    {
        match self.last {
            Perspective::Gul | Perspective::Il => false,
            Perspective::Ri => true,
        }
    }
}
