//! The program: hands the words and the streams of the process to the one call that runs a command,
//! and ends with its status.
//! The rules: docs/COMMANDS.md, docs/REFUSALS.md.
#![tactic(auto)]

mod arguments;
mod streams;

use arguments::words_of;
use kt_out::{Inputs, Open, Outputs, Sink, Source};
use kt_process::{DirInputs, DirOutputs, StdErr, StdSink, StdSource};
use kt_tools::{Status, Words, run};
use std::alloc::Global;
use std::process::ExitCode;
use std::thread::Threads;
use streams::hold_closed_streams;

/// The one call, over objects of which nothing is said: what a folder and the process's streams hold no clause tells.
fn answer<R: Threads + Sync, I: Inputs, O: Outputs, S: Source, K: Sink, E: Sink>(
    rt: &R,
    alloc: Global,
    words: &Words,
    inputs: &mut I,
    outputs: &mut O,
    source: &mut S,
    sink: &mut K,
    err: &mut E,
) -> Status {
    run(rt, alloc, &Open, words, inputs, outputs, source, sink, err)
}

fn main(rt: HostRuntime) -> ExitCode {
    let _held = hold_closed_streams(&rt);
    let alloc = rt.alloc();
    // A want of memory for the words is that of the run: nothing is read or written.
    let status = match words_of(&rt, alloc) {
        Err(_) => Status::NoMemory,
        Ok(words) => answer(
            &rt,
            alloc,
            &words,
            &mut DirInputs::new(&rt, alloc),
            &mut DirOutputs::new(&rt, alloc),
            &mut StdSource::new(rt.stdin()),
            &mut StdSink::new(rt.stdout()),
            &mut StdErr::new(rt.stderr()),
        ),
    };
    ExitCode::from(status.code())
}
