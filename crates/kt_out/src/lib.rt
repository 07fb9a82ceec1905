//! The outside world as traits (a source and a sink of bytes, input and output files, a gate for
//! workers), with objects in memory that keep them.
#![tactic(auto)]

mod appending;
mod fault;
mod gate;
mod input_call;
mod inputs;
mod memory;
mod outputs;
mod shared;
mod sink;
mod source;
mod writing;

pub use appending::append_all;
pub use fault::{Absent, Failed, Fault, some_read};
pub use gate::{Gate, Open};
pub use input_call::InputCall;
pub use inputs::Inputs;
pub use memory::{
    MemInputs, MemOutputs, MemSink, MemSource, SureInputs, SureOutputs, SureSink, SureSource,
};
pub use outputs::Outputs;
pub use sink::Sink;
pub use source::Source;
pub use writing::write_all;
