//! A gate through which parts of a round are seen side by side.
//! What it is for: README.md.
//! The rule: docs/PROVING.md, "Tests".

use kt_out::Gate;
use std::hint::spin_loop;
use std::sync::atomic::{AtomicU64, Ordering};

/// Holds each part of a round until all parts of its group have begun, or until some part has looked for them so often in vain. The
/// parts have the numbers from 0 to 63, and each group as many of them as the others, in order.
#[derive(Drop)]
pub(crate) struct GroupGate {
    /// How many parts a group has, 1 to 16.
    size: u32,
    /// How often a part looks.
    limit: u64,
    /// A bit for each part that has begun.
    begun: AtomicU64,
    /// How many parts have begun; one that begins twice counts twice.
    passes: AtomicU64,
    /// The first part that has looked in vain: its number plus 1, times 2^32, plus how many had begun then; 0 where none has.
    vain: AtomicU64,
}

/// What a gate has seen.
#[derive(Clone, Copy)]
pub(crate) struct Passes {
    /// A bit for each part that has begun.
    pub(crate) begun: u64,
    /// How many parts have begun.
    pub(crate) count: u64,
    /// The first part that has looked in vain, and how many had begun then.
    pub(crate) vain: Option<(u64, u64)>,
}

/// The bit of a part.
fn bit_of(part: u32) -> u64 {
    1u64.wrapping_shl(part)
}

/// The bits of so many parts from one on.
fn bits_from(first: u32, count: u32) -> u64 {
    bit_of(count).wrapping_sub(1).wrapping_shl(first)
}

impl GroupGate {
    /// A gate in front of groups of so many parts, 1 to 16, each of which looks so often.
    pub(crate) fn new(size: u32, limit: u64) -> Self {
        GroupGate {
            size: size.max(1),
            limit,
            begun: AtomicU64::new(0),
            passes: AtomicU64::new(0),
            vain: AtomicU64::new(0),
        }
    }

    /// The bits of a part's group.
    fn group_of(&self, part: u32) -> u64 {
        let size = self.size.max(1);
        bits_from(part - part % size, size)
    }

    /// Looks until these parts have begun or some part has looked in vain; false where the limit comes first. The processor pauses after each
    /// look, so that the limit leaves a second or more, and not a third of one, for a thread to come to a processor on a busy
    /// machine.
    fn sees(&self, group: u64) -> bool {
        for _ in 0..self.limit {
            let begun = self.begun.load(Ordering::SeqCst);
            if begun & group == group || self.vain.load(Ordering::SeqCst) != 0 {
                return true;
            }
            spin_loop();
        }
        false
    }

    /// Keeps that a part has looked in vain, where none has before.
    fn keep(&self, part: u32) {
        let count = self.passes.load(Ordering::SeqCst) & 0xffff_ffff;
        let found = (u64::from(part) + 1).wrapping_shl(32) | count;
        let _ = self
            .vain
            .compare_exchange(0, found, Ordering::SeqCst, Ordering::SeqCst);
    }

    /// What it has seen.
    pub(crate) fn passes(&self) -> Passes {
        let vain = self.vain.load(Ordering::SeqCst);
        Passes {
            begun: self.begun.load(Ordering::SeqCst),
            count: self.passes.load(Ordering::SeqCst),
            vain: if vain == 0 {
                None
            } else {
                Some(((vain / 0x1_0000_0000).wrapping_sub(1), vain & 0xffff_ffff))
            },
        }
    }
}

impl Gate for GroupGate {
    fn pass(&self, partition: u32) {
        let _ = self.begun.fetch_or(bit_of(partition), Ordering::SeqCst);
        let _ = self.passes.fetch_add(1, Ordering::SeqCst);
        if !self.sees(self.group_of(partition)) {
            self.keep(partition);
        }
    }
}
