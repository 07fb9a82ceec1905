//! Period totals and maxima of summary records.
#![tactic(auto)]

mod cells;
mod group;
pub mod laws;
mod row;
mod row_key;
mod rows;
mod shared;

pub use cells::Cells;
pub use group::{SetCells, SummaryCells, SummaryRow};
pub use row::{Row, placed_cell};
