//! The tool that makes one stream of the streams in some files, or writes their bytes one after the other.
#![tactic(auto)]

mod copied;
mod each_file;
mod file_step;
mod front;
mod kinds;
pub mod laws;
mod plain;
mod sizes;
mod stops;
mod streams;
mod tool;

pub use tool::kat;
