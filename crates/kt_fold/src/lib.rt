//! The fold of a run: it takes the parts of its rounds in their order, adds the records of their blocks to the periods, and keeps the
//! blocks.
#![tactic(auto)]

mod adding;
mod fold;
mod limit;
mod part;
mod ready;
mod ready_list;
mod shared;

pub use fold::{FoldStop, RunFold};
pub use limit::CellLimit;
pub use part::{PartBlock, RefusedRow};
pub use ready::ReadyPart;
