//! Ids by rising number, each once.
//! The rule: docs/FINANCIAL_MODULE.md, "Levels".
ghost use Rattle.std.specs.Prelude.{◌≡◌, IfOk};
ghost use Rattle.kt_rec.specs.Rising.{rising};

use std::alloc::AllocError;

/// The ids by rising number, each once. An error is want of memory.
pub fn rising(ids: Vec<u32>) -> Result<Vec<u32>, AllocError>
    ensures value { IfOk result (λ sorted. sorted.items ≡ rising ids.items) }
{
    let mut ids = ids;
    ids.sort()?;
    ids.dedup();
    Ok(ids)
}
