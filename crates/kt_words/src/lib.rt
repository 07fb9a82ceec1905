//! The words of a call: what each tool takes, as a table, and the command that the words are.
#![tactic(auto)]

mod command;
mod given;
mod judging;
mod reading;
mod rows;
mod stop;
mod table;
mod tool;
mod value;
mod words;

pub use command::{Command, Conversion, read_command};
pub use stop::{WordCause, WordStop};
pub use words::Words;
