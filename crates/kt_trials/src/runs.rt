//! A run over files and a text in memory.
//! The rule: docs/PROVING.md, "Tests".

use kt_out::{Gate, Inputs, Outputs, Sink, Source, SureOutputs, SureSink, SureSource};
use kt_tools::{Status, Words, run};
use std::alloc::AllocGlobal;
use std::thread::Threads;

/// How a run ends. Its clauses end here, where no object is owned, so that callers are checked without them.
fn status_of<
    R: Threads + Sync + AllocGlobal,
    G: Gate + Sync,
    I: Inputs,
    O: Outputs,
    S: Source,
    K: Sink,
    E: Sink,
>(
    rt: &R,
    gate: &G,
    words: &Words,
    inputs: &mut I,
    outputs: &mut O,
    source: &mut S,
    sink: &mut K,
    err: &mut E,
) -> Status {
    let alloc = rt.alloc();
    run(rt, alloc, gate, words, inputs, outputs, source, sink, err)
}

/// How a run over these files and this text ends. What it writes goes into the sinks; its output files are let go.
pub(crate) fn ended<R: Threads + Sync + AllocGlobal, G: Gate + Sync, I: Inputs>(
    rt: &R,
    gate: &G,
    words: &Words,
    inputs: &mut I,
    text: Vec<u8>,
    sink: &mut SureSink,
    err: &mut SureSink,
) -> Status {
    let mut outputs = SureOutputs::new(rt.alloc());
    let mut source = SureSource::new(text);
    status_of(
        rt,
        gate,
        words,
        inputs,
        &mut outputs,
        &mut source,
        sink,
        err,
    )
}
