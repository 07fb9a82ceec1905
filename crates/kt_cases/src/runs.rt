//! Loads, and runs of the tools over objects of several kinds.
//! The language: README.md.
//! The rules: docs/HOSTILE_USE.md, "Cases"; docs/PROVING.md, "Tests".

use kt_checks::Need;
use kt_ends::status_of;
use kt_load::load as load_tables;
use kt_out::{
    Inputs, MemInputs, MemOutputs, MemSink, MemSource, Open, Outputs, Sink, Source, SureInputs,
    SureOutputs, SureSink, SureSource,
};
use kt_process::{StdErr, StdSink, StdSource};
use kt_script::{Calls, Files, NotTaken, Reader, SaidSize, Seen, Settings, Writer, ended};
use kt_tools::{Status, Words, load_stop, run};
use std::alloc::{AllocError, AllocGlobal, Global};
use std::thread::Threads;

/// The exit status of a run. Its clauses end here, so that callers are checked without them.
fn status_code<R: Threads + Sync + AllocGlobal, I: Inputs, O: Outputs, S: Source, K: Sink, E: Sink>(
    rt: &R,
    words: &Words,
    inputs: &mut I,
    outputs: &mut O,
    source: &mut S,
    sink: &mut K,
    err: &mut E,
) -> u8 {
    let alloc = rt.alloc();
    run(rt, alloc, &Open, words, inputs, outputs, source, sink, err).code()
}

/// How a run ends that loads these tables and does no more.
fn load_status<I: Inputs>(alloc: Global, need: Need, inputs: &mut I) -> Status {
    match load_tables(alloc, inputs, need) {
        Ok(_) => Status::Done,
        Err(stop) => status_of(Err(load_stop(stop))),
    }
}

/// A sink in memory of which this call fails.
fn mem_sink(alloc: Global, failing: u32, most: u32) -> Result<MemSink, AllocError> {
    let fails = vec![in alloc; failing as u64]?;
    Ok(MemSink::new(alloc, fails, most.max(1) as u64))
}

/// The output files of a case.
fn mem_outputs(alloc: Global, settings: &Settings) -> Result<MemOutputs, AllocError> {
    let fails = vec![in alloc; settings.outputs as u64]?;
    Ok(MemOutputs::new(alloc, fails, settings.most.max(1) as u64))
}

/// The source of a case.
fn mem_source(alloc: Global, files: &Files, settings: &Settings) -> Result<MemSource, AllocError> {
    let fails = vec![in alloc; settings.source as u64]?;
    let bytes = files.source(settings.cut).to_vec(alloc)?;
    Ok(MemSource::new(bytes, fails, settings.most.max(1) as u64))
}

/// A run over these files and this source: what its sinks took is what is seen.
fn run_over<R: Threads + Sync + AllocGlobal>(
    rt: &R,
    words: &Words,
    settings: &Settings,
    inputs: &mut MemInputs,
    outputs: &mut MemOutputs,
    source: &mut MemSource,
) -> Result<Seen, NotTaken> {
    let alloc = rt.alloc();
    let mut sink = mem_sink(alloc, settings.sink, settings.most)?;
    let mut err = mem_sink(alloc, settings.err, settings.most)?;
    let code = status_code(rt, words, inputs, outputs, source, &mut sink, &mut err);
    Seen::new(alloc, code, sink.taken(), err.taken())
}

/// A run over these output files.
fn run_into<R: Threads + Sync + AllocGlobal>(
    rt: &R,
    words: &Words,
    files: &Files,
    settings: &Settings,
    outputs: &mut MemOutputs,
) -> Result<Seen, NotTaken> {
    let mut source = mem_source(rt.alloc(), files, settings)?;
    let mut inputs = files.inputs(settings)?;
    run_over(rt, words, settings, &mut inputs, outputs, &mut source)
}

/// A run over objects in memory that fail as they are told to.
pub(crate) fn run_in_memory<R: Threads + Sync + AllocGlobal>(
    rt: &R,
    words: &Words,
    files: &Files,
    settings: &Settings,
) -> Result<Seen, NotTaken> {
    let mut outputs = mem_outputs(rt.alloc(), settings)?;
    let seen = run_into(rt, words, files, settings, &mut outputs)?;
    Ok(seen.with_files(outputs))
}

/// What an output file in memory that never fails has once these bytes were written to it.
fn written(alloc: Global, bytes: &[u8]) -> Result<Vec<u8>, NotTaken> {
    let mut outputs = SureOutputs::new(alloc);
    let mut is_written = outputs.create(b"table.csv").is_ok();
    if !bytes.is_empty() {
        is_written &= outputs.append(b"table.csv", bytes).is_ok();
    }
    match outputs.get(b"table.csv") {
        Some(bytes) if is_written => Ok(bytes.to_vec(alloc)?),
        _ => Err(NotTaken),
    }
}

/// The files of which the events alone are there.
fn events_alone(alloc: Global, files: &Files) -> Result<SureInputs, NotTaken> {
    let mut inputs = SureInputs::new(alloc);
    inputs.add(b"input/events.bin", files.get("input/events.bin"))?;
    Ok(inputs)
}

/// What sinks that never fail took of a run: what it wrote is seen in an output file.
fn seen_surely(alloc: Global, code: u8, sink: &SureSink, err: &SureSink) -> Result<Seen, NotTaken> {
    let output = written(alloc, sink.taken())?;
    Seen::new(alloc, code, &output, err.taken())
}

/// A run over these files and this source, which never fail, and into objects that never do.
fn run_over_surely<R: Threads + Sync + AllocGlobal>(
    rt: &R,
    words: &Words,
    inputs: &mut SureInputs,
    source: &mut SureSource,
) -> Result<Seen, NotTaken> {
    let alloc = rt.alloc();
    let mut sink = SureSink::new(alloc);
    let mut err = SureSink::new(alloc);
    let mut outputs = SureOutputs::new(alloc);
    let code = status_code(rt, words, inputs, &mut outputs, source, &mut sink, &mut err);
    seen_surely(alloc, code, &sink, &err)
}

/// A run over objects in memory that never fail, where of the files the events alone are there. What it wrote is seen in an
/// output file.
pub(crate) fn run_surely<R: Threads + Sync + AllocGlobal>(
    rt: &R,
    words: &Words,
    files: &Files,
    settings: &Settings,
) -> Result<Seen, NotTaken> {
    let alloc = rt.alloc();
    let mut inputs = events_alone(alloc, files)?;
    let mut source = SureSource::new(files.source(settings.cut).to_vec(alloc)?);
    run_over_surely(rt, words, &mut inputs, &mut source)
}

/// The exit status of the last of one or more runs over the adapters of a reader and two writers.
fn adapted_code<R: Threads + Sync + AllocGlobal>(
    rt: &R,
    words: &Words,
    settings: &Settings,
    inputs: &mut MemInputs,
    left: &[u8],
    output: &mut Vec<u8>,
    line: &mut Vec<u8>,
) -> u8 {
    let mut source = StdSource::new(Reader {
        calls: Calls::new(settings, settings.source),
        left,
    });
    let mut sink = StdSink::new(Writer {
        calls: Calls::new(settings, settings.sink),
        taken: output,
    });
    let mut err = StdErr::new(Writer {
        calls: Calls::new(settings, settings.err),
        taken: line,
    });
    let mut outputs = SureOutputs::new(rt.alloc());
    let mut code = 0;
    for _ in 0..settings.times {
        code = status_code(
            rt,
            words,
            inputs,
            &mut outputs,
            &mut source,
            &mut sink,
            &mut err,
        );
    }
    code
}

/// One or more runs over the same adapters of the standard streams: the status of the last one.
pub(crate) fn run_adapted<R: Threads + Sync + AllocGlobal>(
    rt: &R,
    words: &Words,
    files: &Files,
    settings: &Settings,
) -> Result<Seen, NotTaken> {
    let alloc = rt.alloc();
    let mut inputs = files.inputs(settings)?;
    let mut output = Vec::new(alloc);
    let mut line = Vec::new(alloc);
    let code = adapted_code(
        rt,
        words,
        settings,
        &mut inputs,
        files.source(settings.cut),
        &mut output,
        &mut line,
    );
    Seen::new(alloc, code, &output, &line)
}

/// What the loads of a case are for.
fn need_of(files: &Files, settings: &Settings) -> Result<Need, AllocError> {
    Ok(Need {
        loaded: files.loaded()?,
        samples: settings.samples,
        rule: settings.rule,
        net: settings.net != 0,
    })
}

/// A load of the tables that `of` gives.
pub(crate) fn load(alloc: Global, files: &Files, settings: &Settings) -> Result<Seen, NotTaken> {
    let need = need_of(files, settings)?;
    let mut inputs = files.inputs(settings)?;
    let said = files.get("says");
    let status = if said.is_empty() {
        load_status(alloc, need, &mut inputs)
    } else {
        load_status(
            alloc,
            need,
            &mut SaidSize::new(inputs, said, settings.size as u64),
        )
    };
    ended(alloc, status)
}
