//! What is carried from a unit to the next: a loss, and what was taken from it.
//! The rules: docs/FINANCIAL_MODULE.md, "The four amounts" and "Allocation".
ghost use Rattle.std.specs.Prelude.{◌≡◌, ◌≤◌, ◌^◌};
ghost use Rattle.kt_rules.specs.Amounts.{total, weight};

/// A loss and the amounts that terms took from it, in cents. Each rule keeps the sum of the four.
#[derive(Clone, Copy)]
pub struct Carry {
    /// The loss that is left to the insurer.
    pub loss: u64,
    /// What deductibles took.
    pub ded: u64,
    /// What was above limits.
    pub over: u64,
    /// What was kept below attachments and beside shares.
    pub kept: u64,
}

impl Carry {
    /// The ground-up loss beneath a unit, in cents: what its terms left, and what they took. The four amounts add to at most 10^16.
    pub fn ground_up(self) -> u64
        requires { total self ≤ 10 ^ 16 }
        ensures value { result ≡ total self }
    {
        self.loss + self.ded + self.over + self.kept
    }

    /// The weight of a unit among those that carry a loss: its own, or the ground-up loss beneath it where they carry none. The four
    /// amounts add to at most 10^16.
    pub fn weight(self, carried: u64) -> u64
        requires { total self ≤ 10 ^ 16 }
        ensures value { result ≡ weight carried self }
    {
        if carried == 0 {
            self.ground_up()
        } else {
            self.loss
        }
    }
}
