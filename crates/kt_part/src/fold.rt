//! What takes the blocks of a round, one after the other.
//! The rule: docs/ARCHITECTURE.md, "A run of all stages".
ghost use Rattle.std.specs.Prelude.{List};
ghost use Rattle.kt_part.specs.Folding.{Takes};

/// Takes blocks in order, until one stops it.
pub trait Fold<B> {
    /// Why a block stops it, or want of memory.
    type Stop: Drop;

    /// What it stood for before its first block.
    ghost Start: { Type 0 };

    /// It stands for these blocks behind its start.
    ghost stands: { Start → Self → List B → Type 0 };

    /// It has stopped behind these blocks, at the next one, for this reason.
    ghost stopped: { Start → Self → List B → B → Self.Stop → Type 0 };

    /// A block that it can take.
    ghost fits: { Self → B → Type 0 };

    /// Takes the block of a number. An error is why it stopped, or want of memory as it says it.
    fn take(&mut self, k: u32, block: B) -> Result<(), Self::Stop>
        requires { fits self.old block }
        ensures takes { (start : Start) (before : List B) → stands start self.old before → Takes (stands start self.new) (stopped start self.new) before block result }
        ensures fits { (other : B) → fits self.old other → fits self.new other };
}
