//! The numbers that a seed gives, one after the other.
//! The rules: docs/GENERATOR.md, "Draws".
ghost use Rattle.std.specs.Prelude.{◌≡◌, ◌<◌, ◌+◌};
ghost use Rattle.kt_gen.specs.Draws.{draw, state_of};

/// The draws of a seed, as far as they were made.
#[derive(Clone, Copy)]
pub(crate) struct Draws {
    pub(crate) seed: u32,
    pub(crate) made: u32,
    state: u64,
    ghost stands: { state ≡ state_of seed made },
}

impl Draws {
    /// No draw was made.
    #[tactic(auto, unfolding(crate::specs::Draws::state_of))]
    pub(crate) fn new(seed: u32) -> Self
        ensures seed { result.seed ≡ seed }
        ensures none { result.made ≡ 0 }
    {
        Draws {
            seed,
            made: 0,
            state: u64::from(seed),
        }
    }

    /// The next draw of the numbers below a bound.
    #[tactic(auto, unfolding(crate::specs::Draws::state_of))]
    pub(crate) fn next(&mut self, below: u32) -> u32
        requires some { 0 < below }
        requires few { self.old.made < 1000000 }
        ensures value { result ≡ draw self.old.seed (self.old.made + 1) below }
        ensures within { result < below }
        ensures made { self.new.made ≡ self.old.made + 1 }

        ensures seed { self.new.seed ≡ self.old.seed }
    {
        let state = self
            .state
            .wrapping_mul(6_364_136_223_846_793_005)
            .wrapping_add(1_442_695_040_888_963_407);
        *self = Draws {
            seed: self.seed,
            made: self.made + 1,
            state,
        };
        (state >> 33) as u32 % below
    }
}
