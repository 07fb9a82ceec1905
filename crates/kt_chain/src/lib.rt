//! A run of all stages over a portfolio: its events round by round, and the files that it makes.
#![tactic(auto)]

pub mod laws;
mod options;
mod rounds;
mod rows;
mod run;
mod shared;
mod text_fold;
mod texts;
mod work;

pub use options::ChainOptions;
pub use run::run_chain;
