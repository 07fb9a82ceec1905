//! A made-up input set of any size, from a seed.
#![tactic(auto)]

mod damage;
mod draws;
mod exposure;
mod file_lines;
mod financial;
mod generated;
mod groups;
mod hazard;
mod laws;
mod parts;
mod periods;
mod stage;
mod summaries;

pub use file_lines::push_file_lines;
pub use generated::{generate, generate_footprint};
pub use laws::made_files_are_shown;
