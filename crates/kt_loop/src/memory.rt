//! Memory that is kept from run to run.
//! The rule: docs/LIMITS.md, "Memory that is kept".

use std::alloc::Global;

/// Somewhat less than 32 MiB: of no greater block does the C library's allocator learn how much it is to keep.
const RUN_MEMORY: usize = 33_000_000;

/// Takes a block of memory and gives it back, without a byte of it being used. The C library's allocator would give the memory of each
/// run or event back to the system and ask for it anew, a page at a time; from then on it keeps up to twice as much as the block.
/// Nothing else depends on it, so it may fail.
pub fn keep_memory(alloc: Global) {
    let _ = Vec::<u8>::with_capacity(alloc, RUN_MEMORY);
}
