//! Slots for the blocks of a round: they are put in any order, and taken in the order of their numbers.
//! The rule: docs/ARCHITECTURE.md, "A run of all stages".
ghost use Rattle.std.specs.Prelude.{◌≡◌, ◌≤◌, vec_len};

use std::alloc::{AllocError, Global};

/// The slots of a round: one for each number below this.
const SLOTS: usize = 16;

/// The blocks that are held, by their numbers, and the number that is taken next.
#[derive(Drop)]
pub struct Reorder<B> {
    slots: Vec<Option<B>>,
    next: u32,
    ghost sixteen: { vec_len slots ≡ 16 },
    ghost within: { next ≤ 16 },
}

impl<B: Drop> Reorder<B> {
    ghost use Rattle.std.specs.Prelude.{◌≡◌, ◌+◌, ◌<◌, ◌≢◌, ◌↔◌, ℕ, IfNone, IfOk, IfSome, IsTrue, Some, None};
    ghost use Rattle.kt_claims.specs.Slots.{HasRoom, held_at, next_of};

    /// Sixteen empty slots, of which number 0 is taken next. An error is want of memory.
    pub fn new(alloc: Global) -> Result<Reorder<B>, AllocError>
        ensures empty { IfOk result (λ made. (number : ℕ) → held_at made number ≡ None) }
        ensures next { IfOk result (λ made. next_of made ≡ 0) }
    {
        let mut slots = Vec::with_capacity(alloc, SLOTS)?;
        for _place in 0..SLOTS {
            slots.push(None)?;
        }
        Ok(Reorder { slots, next: 0 })
    }

    /// Whether the block of a number may be put: the number is below 16, not taken yet, and not held.
    pub fn can_put(&self, k: u32) -> bool
        ensures { IsTrue result ↔ HasRoom self.now k }
    {
        self.next <= k && (k as usize) < self.slots.len() && self.slots[k as usize].is_none()
    }

    /// Puts the block of a number.
    pub fn put(&mut self, k: u32, block: B)
        requires { HasRoom self.old k }
        ensures at { held_at self.new k ≡ Some block }
        ensures others { (number : ℕ) → number ≢ k → held_at self.new number ≡ held_at self.old number }
        ensures next { next_of self.new ≡ next_of self.old }
    {
        self.slots[k as usize] = Some(block);
    }

    /// Takes the block of the next number; `None` where it is not held.
    pub fn next(&mut self) -> Option<B>
        ensures some { IfSome result (λ block. (held_at self.old (next_of self.old) ≡ Some block) × (next_of self.new ≡ next_of self.old + 1)) }
        ensures none { IfNone result ((held_at self.old (next_of self.old) ≡ None) × (self.new ≡ self.old)) }
        ensures later { (number : ℕ) → next_of self.old < number → held_at self.new number ≡ held_at self.old number }
    {
        let at = self.next as usize;
        if at >= self.slots.len() {
            return None;
        }
        let block = self.slots[at].take()?;
        self.next += 1;
        Some(block)
    }
}
