//! One loop under all tools that read a stream, and the calculations that it carries out.
#![tactic(auto)]

mod block;
mod by_run;
mod carry;
mod file;
pub mod laws;
mod memory;
mod record_reader;
mod run;
mod run_key;
mod run_list;
mod spill;
mod stage;
mod turn;

pub use block::{BLOCK, begin_block, zeros};
pub use by_run::{RunStage, run_by_run};
pub use file::read_piece;
pub use memory::keep_memory;
pub use record_reader::read_records;
pub use run::run_stage;
pub use run_key::{RunKey, RunRecord};
pub use stage::Stage;
