//! Adapters over the process's own streams and the files of its current folder.
#![tactic(auto)]

mod dir_inputs;
mod dir_outputs;
mod folder;
mod output_folder;
mod shared;
mod std_streams;

pub use dir_inputs::DirInputs;
pub use dir_outputs::DirOutputs;
pub use std_streams::{StdErr, StdSink, StdSource};
