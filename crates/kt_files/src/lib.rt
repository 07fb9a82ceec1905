//! The output files of a run: which there are, their names, and the three parts of their texts.
#![tactic(auto)]

mod blocks;
mod curves;
mod endings;
mod file;
mod headings;
pub mod laws;
mod layers;
mod listing;
mod made;
mod names;
mod sets;

pub use curves::shared_curves;
pub use endings::Endings;
pub use file::{OutputFile, SetTable};
pub use headings::Headings;
pub use listing::output_files;
pub use made::{FileRows, find_rows, make_rows, push_blocks};
