//! What makes the blocks of a round.
//! The rule: docs/ARCHITECTURE.md, "A run of all stages".
ghost use Rattle.std.specs.Prelude.{◌<◌, ℕ, IfErr, IfOk};

use std::alloc::AllocError;

/// Makes a block for each number, the same whichever blocks were made before. Threads may make several at once.
pub trait Work {
    /// What is made.
    type Block: Send + Drop;

    /// The blocks that may be made for a number.
    ghost gives: { Self → ℕ → Self.Block → Type 0 };

    /// The numbers for whose blocks memory may be wanting.
    ghost lacks: { Self → ℕ → Type 0 };

    /// A number that no number of a block reaches.
    ghost most: { Self → ℕ };

    /// Makes the block of a number. An error is want of memory.
    fn work(&self, k: u32) -> Result<Self::Block, AllocError>
        requires { k < most self.now }
        ensures ok { IfOk result (gives self.now k) }
        ensures memory { IfErr result (λ _. lacks self.now k) };
}
