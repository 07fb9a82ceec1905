//! The objects in memory, for tests and for what is made inside the program.
//! The rule: docs/ARCHITECTURE.md, "The outside".
mod mem_inputs;
mod mem_outputs;
mod mem_sink;
mod mem_source;
mod sure_inputs;
mod sure_outputs;
mod sure_sink;
mod sure_source;

pub use mem_inputs::MemInputs;
pub use mem_outputs::MemOutputs;
pub use mem_sink::MemSink;
pub use mem_source::MemSource;
pub use sure_inputs::SureInputs;
pub use sure_outputs::SureOutputs;
pub use sure_sink::SureSink;
pub use sure_source::SureSource;
