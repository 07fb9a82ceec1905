//! Prints what small trials come to of which no contract speaks: rounds of works by one worker and by many, what the merger of a
//! round takes, and a made-up set; which parts of a round of `chain` are made side by side, and what a round asks of the footprint's
//! file. What must be printed: stdout; why: README.md.
//! The rule: docs/PROVING.md, "Tests".
#![tactic(auto)]

mod failure;
mod gate;
mod gates;
mod made;
mod merging;
mod reads;
mod rounds;
mod runs;
mod tables;
mod words;

use failure::Failure;
use std::alloc::AllocGlobal;
use std::io::Print;
use std::process::ExitCode;
use std::thread::Threads;

/// Prints what all trials come to.
fn print_all<R: Threads + Sync + AllocGlobal + Print>(rt: &R) -> Result<(), Failure> {
    rounds::print_rounds(rt)?;
    merging::print_merging(rt)?;
    made::print_set(rt)?;
    made::print_file_lines(rt)?;
    gates::print_gates(rt)?;
    reads::print_runs(rt)
}

fn main(rt: HostRuntime) -> ExitCode {
    match print_all(&rt) {
        Ok(()) => ExitCode::SUCCESS,
        Err(Failure) => ExitCode::FAILURE,
    }
}
