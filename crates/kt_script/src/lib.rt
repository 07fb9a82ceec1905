//! Scripts of cases, taken line by line: the files, numbers and words of each, its questions, and what these leave to be seen.
#![tactic(auto)]

mod adapted;
mod files;
mod not_taken;
mod said_size;
mod script;
mod seen;
mod settings;
mod texts;
mod words;

pub use adapted::{Calls, Reader, Writer};
pub use files::Files;
pub use not_taken::NotTaken;
pub use said_size::SaidSize;
pub use script::{Asked, Script};
pub use seen::{Seen, ended};
pub use settings::Settings;
pub use words::{words_of, words_seen};
