//! Compares what words, loads and runs of the tools answer with what was worked out by hand, and prints each answer that is
//! another one, and how many were compared.
//! The cases: data; how one is written: README.md.
//! The rules: docs/HOSTILE_USE.md, "Cases"; docs/PROVING.md, "Tests".
#![tactic(auto)]

mod grids;
mod runs;
mod tools;

use kt_script::{NotTaken, Script};
use std::alloc::AllocGlobal;
use std::fs;
use std::fs::Files;
use std::io::Print;
use std::process::ExitCode;
use std::thread::Threads;
use tools::take;

/// The files of the cases.
const DATA: [&str; 7] = [
    "words", "loads", "runs", "faults", "chains", "limits", "hostile",
];

/// Prints the differences of a script, and how many answers were compared.
fn print_end<R: Print>(rt: &R, name: &str, script: &Script) -> Result<(), NotTaken> {
    print!(rt; "{}", script.differences())?;
    println!(rt; "{name}: {} answers compared", script.compared())?;
    Ok(())
}

/// Prints what comes of the cases of a file.
fn compare_all<R: Threads + Sync + AllocGlobal + Files + Print>(
    rt: &R,
    name: &str,
) -> Result<(), NotTaken> {
    let text = fs::read_to_string(rt, name)?;
    let mut script = Script::new(rt.alloc());
    for line in text.lines() {
        if take(rt, &mut script, line).is_err() {
            script.refuse(line)?;
        }
    }
    print_end(rt, name, &script)
}

fn main(rt: HostRuntime) -> ExitCode {
    for name in DATA {
        if compare_all(&rt, name).is_err() {
            return ExitCode::FAILURE;
        }
    }
    ExitCode::SUCCESS
}
