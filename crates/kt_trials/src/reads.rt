//! What runs of three rounds ask of the footprint's file.
//! What is tried: README.md.
//! The rules: docs/TABLES.md, "Footprint rows of a round"; docs/PROVING.md, "Tests".

use crate::failure::Failure;
use crate::runs::ended;
use crate::tables::kept_inputs_of;
use crate::words::words_of;
use kt_out::{MemInputs, Open, SureSink};
use kt_tools::Words;
use std::alloc::{AllocGlobal, Global};
use std::io::Print;
use std::str;
use std::thread::Threads;

/// How many events a run has: three rounds of sixteen parts with one event each.
const EVENTS: u32 = 48;

/// Puts a line behind a text for each event from one on: its number, and this.
fn push_lines(alloc: Global, text: &mut String, first: u32, behind: &str) -> Result<(), Failure> {
    for event in first..EVENTS + 1 {
        text.push_str(&format!(in alloc; "{event}{behind}\n")?)?;
    }
    Ok(())
}

/// Prints what was asked of the footprint's file behind its header, a line for each call: the place, and how many bytes.
fn print_reads<R: Print>(rt: &R, inputs: &MemInputs) -> Result<(), Failure> {
    for call in inputs.calls() {
        if call.name.as_slice() == b"static/footprint.bin".as_slice() && call.at != 0 {
            println!(rt; "  {} bytes from byte {}", call.len, call.at)?;
        }
    }
    Ok(())
}

/// The files of a run over events whose first has these rows in the footprint.
fn inputs_with<R: Threads + Sync + AllocGlobal>(rt: &R, first: &str) -> Result<MemInputs, Failure> {
    let alloc = rt.alloc();
    let mut events = String::new(alloc);
    push_lines(alloc, &mut events, 1, "")?;
    let mut strikes = String::from_str(alloc, first)?;
    push_lines(alloc, &mut strikes, 2, ",1,1,1")?;
    kept_inputs_of(rt, &events, &strikes)
}

/// The exit status of a run over these files.
fn status_code<R: Threads + Sync + AllocGlobal>(
    rt: &R,
    words: &Words,
    inputs: &mut MemInputs,
    err: &mut SureSink,
) -> u8 {
    let alloc = rt.alloc();
    let mut sink = SureSink::new(alloc);
    ended(rt, &Open, words, inputs, Vec::new(alloc), &mut sink, err).code()
}

/// Prints how a run over these files ends, and what it asked for.
fn print_end<R: Threads + Sync + AllocGlobal + Print>(
    rt: &R,
    inputs: &mut MemInputs,
) -> Result<(), Failure> {
    let words = words_of(rt.alloc(), "chain -S 2 -l gul -b 1 -w 2")?;
    let mut err = SureSink::new(rt.alloc());
    let code = status_code(rt, &words, inputs, &mut err);
    println!(rt; "status {code}")?;
    print!(rt; "{}", str::from_utf8(err.taken()).unwrap_or("?"))?;
    print_reads(rt, inputs)
}

/// Prints how a run ends over events whose first has these rows in the footprint, and what it asked for.
fn print_run<R: Threads + Sync + AllocGlobal + Print>(rt: &R, first: &str) -> Result<(), Failure> {
    let mut inputs = inputs_with(rt, first)?;
    print_end(rt, &mut inputs)
}

/// Prints a run whose events all pass, and one whose first event is refused: its second row lifts the sum of the probabilities above 1.
pub(crate) fn print_runs<R: Threads + Sync + AllocGlobal + Print>(rt: &R) -> Result<(), Failure> {
    print_run(rt, "1,1,1,1\n")?;
    print_run(rt, "1,1,1,1\n1,1,2,1\n")
}
