//! The types of this crate may be sent to other threads and shared by them.
//! The rule: docs/ARCHITECTURE.md, "What threads share".
use crate::{
    Absent, Failed, Fault, InputCall, MemInputs, MemOutputs, MemSink, MemSource, Open, SureInputs,
    SureOutputs, SureSink, SureSource,
};

fn is_shared<T: Send + Sync>(_: &T) {}

/// The answers, a call that is kept, and the open gate.
fn answers_are_shared(
    failed: &Failed,
    fault: &Fault,
    absent: &Absent,
    call: &InputCall,
    open: &Open,
) {
    is_shared(call);
    is_shared(failed);
    is_shared(fault);
    is_shared(absent);
    is_shared(open);
}

/// The sources and sinks in memory.
fn streams_are_shared(a: &MemSource, b: &MemSink, c: &SureSource, d: &SureSink) {
    is_shared(a);
    is_shared(b);
    is_shared(c);
    is_shared(d);
}

/// The files in memory.
fn files_are_shared(a: &MemInputs, b: &SureInputs, c: &MemOutputs, d: &SureOutputs) {
    is_shared(a);
    is_shared(b);
    is_shared(c);
    is_shared(d);
}
