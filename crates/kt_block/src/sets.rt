//! The summary sets of a perspective.
//! The rules: docs/COMMANDS.md, "chain".
ghost use Rattle.std.specs.Prelude.{◌≡◌, IfOk};
ghost use Rattle.kt_block.specs.Terms.{set_numbers};

use kt_rec::Perspective;
use kt_tables::Portfolio;
use std::alloc::{AllocError, Global};

/// The number of summary sets that a perspective may have.
const SETS: u32 = 9;

/// The numbers of the summary sets that a perspective has, rising. An error is want of memory.
pub fn set_numbers(
    alloc: Global,
    portfolio: &Portfolio,
    perspective: Perspective,
) -> Result<Vec<u32>, AllocError>
    ensures value { IfOk result (λ sets. sets.items ≡ set_numbers portfolio.now.rows perspective) }
{
    (1..SETS + 1)
        .filter(|set| portfolio.has_set(perspective, *set))
        .collect(alloc)
}
