//! The writer of a list of files: it makes them empty, and appends to each the text that it gains.
#![tactic(auto)]

mod appending;
mod beside;
mod calls;
mod creating;
mod hands;
mod named;
mod spill;
mod texts;

pub use appending::append_texts;
pub use beside::append_texts_beside;
pub use calls::calls_beside;
pub use creating::create_files;
pub use hands::claim;
pub use named::Named;
pub use texts::Texts;
