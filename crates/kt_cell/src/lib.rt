//! The cell of a key: the total and the greatest of its losses, which losses are added to it, and why one is refused.
#![tactic(auto)]

mod cell;
mod raising;

pub use cell::{Cell, CellStop, Change, adds_any, has_placed, has_total, is_added, sample_of};
pub use raising::{MOST_CELLS, MOST_TOTAL, maximum_in, new_cells, raised, refusal};
