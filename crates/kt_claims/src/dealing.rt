//! What a pass knows of the numbers of a round, what each step tells it, and the rule of the word that all passes share.
//! The rule: docs/ARCHITECTURE.md, "A run of all stages".
use atomic_table::{Join, Play, Split, TableRule};
use std::collections::LinkedList;

/// What a pass knows: the numbers that it drew, how many draws it has left, and among how many workers all draws were dealt. No
/// value of it is made.
pub struct Known {
    /// The numbers that it drew, in the order of its draws.
    pub claims: LinkedList<u64>,
    /// The draws that it has left.
    pub left: u64,
    /// The workers; 0 where it was joined to another pass.
    pub workers: u64,
}

/// The rule of the word: the numbers below it are dealt among the passes.
pub struct Dealing;

impl TableRule<(), Known, u32> for Dealing {
    ghost use Rattle.kt_claims.specs.Dealing.{IsDealt, undrawn};

    ghost holds = { IsDealt };

    ghost first = { undrawn };
}

/// A draw tells its number, which is above those that the pass had.
pub(crate) struct Draws;

impl Play<(), Known> for Draws {
    ghost use Rattle.std.specs.Prelude.{◌≡◌};
    ghost use Rattle.kt_claims.specs.Dealing.{Drawn};

    ghost then = { λ _ me number now. (now.1 ≡ me.1) × Drawn me.0 number now.0 };
}

/// A look at the word tells that a pass with all draws has all numbers below some number.
pub(crate) struct Settles;

impl Play<(), Known> for Settles {
    ghost use Rattle.std.specs.Prelude.{◌≡◌};
    ghost use Rattle.kt_claims.specs.Dealing.{Settled};

    ghost then = { λ _ me _ now. (now.1 ≡ me.1) × Settled me.0 now.0 };
}

/// The draws of one worker are cut off.
pub(crate) struct Deals;

impl Split<Known> for Deals {
    ghost use Rattle.kt_claims.specs.Dealing.{dealt_out, dealt};

    ghost left = { dealt_out };

    ghost right = { dealt };
}

/// The claims and the draws of two passes are put together.
pub(crate) struct Gathers;

impl Join<Known> for Gathers {
    ghost use Rattle.kt_claims.specs.Dealing.{gathered, spent};

    ghost both = { gathered };

    ghost spent = { spent };
}
