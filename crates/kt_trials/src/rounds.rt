//! Rounds of small works, by one worker and by many.
//! The rule: docs/PROVING.md, "Tests".
ghost use Rattle.std.specs.Prelude.{◌<◌, ◌≤◌};

use crate::failure::Failure;
use kt_claims::Claims;
use kt_part::{Fold, RoundStop, Work, run_round};
use std::alloc::{AllocError, AllocGlobal};
use std::io::Print;
use std::sync::atomic::{AtomicU64, Ordering};
use std::thread::{Threads, yield_now};

/// How often a block looks for the others of its group before it gives up.
const LOOKS: u32 = 100_000_000;

/// Gives a hundred more than each number, once as many blocks as `group` have begun. Memory is wanting at one number.
#[derive(Drop)]
struct Hundreds {
    group: u64,
    wanting: u32,
    begun: AtomicU64,
    late: AtomicU64,
}

impl Work for Hundreds {
    ghost use Rattle.std.specs.Prelude.{◌≡◌, ⊤};

    type Block = u32;

    ghost gives = { λ _ _ _. ⊤ };

    ghost lacks = { λ work k. k ≡ work.wanting };

    ghost most = { λ _. 16 };

    fn work(&self, k: u32) -> Result<u32, AllocError> {
        self.begun.fetch_add(1, Ordering::SeqCst);
        let mut is_late = true;
        for _ in 0..LOOKS {
            if self.group <= self.begun.load(Ordering::SeqCst) {
                is_late = false;
                break;
            }
            yield_now();
        }
        if is_late {
            self.late.fetch_add(1, Ordering::SeqCst);
        }
        if k == self.wanting {
            Err(AllocError)
        } else {
            Ok(100 + k)
        }
    }
}

/// Keeps blocks, and stops at one number.
#[derive(Drop)]
struct Row {
    blocks: [u32; 16],
    taken: usize,
    stop_at: u32,
}

impl Fold<u32> for Row {
    ghost use Rattle.std.specs.Prelude.{⊤};

    type Stop = u32;

    ghost Start = { Unit {0} };

    ghost stands = { λ _ _ _. ⊤ };

    ghost stopped = { λ _ _ _ _ _. ⊤ };

    ghost fits = { λ _ _. ⊤ };

    fn take(&mut self, k: u32, block: u32) -> Result<(), u32> {
        if k == self.stop_at {
            return Err(block);
        }
        if self.taken < self.blocks.len() {
            self.blocks[self.taken] = block;
            self.taken += 1;
        }
        Ok(())
    }
}

/// No number of a round.
const NEVER: u32 = 99;

/// Blocks that wait for as many others as `group` says, where memory is wanting at a number.
fn after(group: u64, wanting: u32) -> Hundreds {
    Hundreds {
        group,
        wanting,
        begun: AtomicU64::new(0),
        late: AtomicU64::new(0),
    }
}

/// Prints how a round of these works ends, and the blocks that the fold has taken.
fn print_round<R: Threads + Sync + AllocGlobal + Print>(
    rt: &R,
    work: &Hundreds,
    count: u32,
    workers: u32,
    stop_at: u32,
) -> Result<(), Failure>
    requires { (count ≤ 16) × (0 < workers) × (workers ≤ 16) }
{
    let alloc = rt.alloc();
    let mut row = Row {
        blocks: [0; 16],
        taken: 0,
        stop_at,
    };
    let (claims, mut pass) = Claims::new(alloc, workers)?;
    let ended = run_round(
        rt, alloc, &claims, &mut pass, work, &mut row, count, workers,
    );
    print!(rt; "{count} numbers, {workers} workers: ")?;
    match ended {
        Ok(()) => println!(rt; "done")?,
        Err(RoundStop::Fold { k, stop }) => println!(rt; "stopped at {k} by {stop}")?,
        Err(RoundStop::OutOfMemory) => println!(rt; "no memory")?,
    }
    println!(rt; "  {:?}", row.blocks.get(..row.taken).unwrap_or(&[]))?;
    Ok(())
}

/// Prints rounds that end, of sixteen numbers and of fewer than there are workers.
fn print_whole<R: Threads + Sync + AllocGlobal + Print>(rt: &R) -> Result<(), Failure> {
    for workers in [1, 2, 4, 16] {
        print_round(rt, &after(0, NEVER), 16, workers, NEVER)?;
    }
    for count in [0, 1, 5] {
        print_round(rt, &after(0, NEVER), count, 16, NEVER)?;
    }
    Ok(())
}

/// Prints rounds that the fold stops, with memory wanting behind its stop, and rounds in which memory is wanting before it.
fn print_stopped<R: Threads + Sync + AllocGlobal + Print>(rt: &R) -> Result<(), Failure> {
    for wanting in [9, 5] {
        for workers in [1, 2, 4, 16] {
            print_round(rt, &after(0, wanting), 16, workers, 7)?;
        }
    }
    Ok(())
}

/// Prints rounds whose blocks wait for as many others as there are workers, and how many blocks waited in vain.
fn print_side_by_side<R: Threads + Sync + AllocGlobal + Print>(rt: &R) -> Result<(), Failure> {
    for workers in [1, 2, 4] {
        let work = after(workers as u64, NEVER);
        print_round(rt, &work, 4, workers, NEVER)?;
        println!(rt; "  late: {}", work.late.load(Ordering::SeqCst))?;
    }
    Ok(())
}

/// Prints all rounds.
pub(crate) fn print_rounds<R: Threads + Sync + AllocGlobal + Print>(rt: &R) -> Result<(), Failure> {
    print_whole(rt)?;
    print_stopped(rt)?;
    print_side_by_side(rt)
}
