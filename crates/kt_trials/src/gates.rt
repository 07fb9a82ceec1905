//! Sees which parts of a round of `chain` are made side by side, by a gate that holds each until its group has begun, and prints each
//! run that is not as it must be, and how many were tried.
//! What is tried: README.md.
//! The rule: docs/PROVING.md, "Tests".

use crate::failure::Failure;
use crate::gate::{GroupGate, Passes};
use crate::runs::ended;
use crate::tables::{FALLING, RISING, inputs_of};
use crate::words::words_of;
use kt_out::{SureInputs, SureSink};
use kt_tools::{Status, Words};
use std::alloc::{AllocGlobal, Global};
use std::io::Print;
use std::thread::Threads;

/// What a gate must have seen.
#[derive(Clone, Copy)]
enum Wanted {
    /// No part looked in vain, and so many parts were made, each once.
    AllOf(u32),
    /// The part with the number 0 looked in vain.
    VainAtFirst,
    /// Some part looked in vain, and at most so many had begun then.
    VainWith(u64),
}

impl Wanted {
    /// Whether a gate has seen this.
    fn is(self, seen: Passes) -> bool {
        match (self, seen.vain) {
            (Wanted::AllOf(count), None) => {
                seen.count == u64::from(count)
                    && seen.begun == 1u64.wrapping_shl(count).wrapping_sub(1)
            }
            (Wanted::VainAtFirst, Some((part, _))) => part == 0,
            (Wanted::VainWith(most), Some((_, count))) => count <= most,
            _ => false,
        }
    }
}

/// A run: the words that say how many workers there are and how many events a part has, how many parts a group has, how often a
/// part looks, and what the gate must see.
#[derive(Clone, Copy)]
struct Trial(&'static str, u32, u64, Wanted);

/// How often a part looks that sees its group in the end.
const LONG: u64 = 100_000_000;

/// How often one looks that does not.
const SHORT: u64 = 10_000_000;

/// The runs. Sixteen parts by two workers go in groups of two, by four in groups of four; a single worker never has two at once, and
/// no group is greater than the number of workers.
const TRIALS: [Trial; 6] = [
    Trial("-b 1 -w 2", 2, LONG, Wanted::AllOf(16)),
    Trial("-b 1 -w 4", 4, LONG, Wanted::AllOf(16)),
    Trial("-b 1 -w 1", 2, SHORT, Wanted::VainAtFirst),
    Trial("-b 1 -w 2", 16, SHORT, Wanted::VainWith(2)),
    Trial("-b 1 -w 4", 16, SHORT, Wanted::VainWith(4)),
    Trial("-b 4 -w 2", 2, LONG, Wanted::AllOf(4)),
];

/// Whether a run over these tables is done.
fn is_done<R: Threads + Sync + AllocGlobal>(
    rt: &R,
    gate: &GroupGate,
    words: &Words,
    inputs: &mut SureInputs,
) -> bool {
    let alloc = rt.alloc();
    let mut sink = SureSink::new(alloc);
    let mut err = SureSink::new(alloc);
    let status = ended(
        rt,
        gate,
        words,
        inputs,
        Vec::new(alloc),
        &mut sink,
        &mut err,
    );
    matches!(status, Status::Done)
}

/// The words of a trial.
fn words_of_trial(alloc: Global, trial: &Trial) -> Result<Words, Failure> {
    let mut words = words_of(alloc, "chain -S 2 -l gul")?;
    for word in trial.0.split_whitespace() {
        words.push(word.as_bytes())?;
    }
    Ok(words)
}

/// Whether a run over these tables ends well and its gate has seen what it must.
fn is_as_wanted<R: Threads + Sync + AllocGlobal>(
    rt: &R,
    inputs: &mut SureInputs,
    trial: &Trial,
) -> Result<bool, Failure> {
    let words = words_of_trial(rt.alloc(), trial)?;
    let gate = GroupGate::new(trial.1, trial.2);
    Ok(is_done(rt, &gate, &words, inputs) && trial.3.is(gate.passes()))
}

/// Tries a run over these tables, and prints it where it is not as it must be.
fn try_one<R: Threads + Sync + AllocGlobal + Print>(
    rt: &R,
    inputs: &mut SureInputs,
    trial: &Trial,
) -> Result<(), Failure> {
    if !is_as_wanted(rt, inputs, trial)? {
        println!(rt; "groups of {}, {}: not as it must be", trial.1, trial.0)?;
    }
    Ok(())
}

/// Tries all runs over events in this order, and prints each that is not as it must be.
fn try_all<R: Threads + Sync + AllocGlobal + Print>(rt: &R, events: &str) -> Result<(), Failure> {
    let mut inputs = inputs_of(rt, events)?;
    for trial in &TRIALS {
        try_one(rt, &mut inputs, trial)?;
    }
    println!(rt; "{} runs tried", TRIALS.len())?;
    Ok(())
}

/// Tries all runs over events in either order. An error is that one could not be made, or that nothing could be printed.
pub(crate) fn print_gates<R: Threads + Sync + AllocGlobal + Print>(rt: &R) -> Result<(), Failure> {
    for events in [RISING, FALLING] {
        try_all(rt, events)?;
    }
    Ok(())
}
