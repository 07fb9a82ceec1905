//! The tools, and the one call that runs them.
#![tactic(auto)]

mod generated;
mod need;
mod top_call;

pub use kt_ends::{Refusal, Status};
pub use kt_front::{load_stop, table_stop};
pub use kt_words::{WordCause, WordStop, Words};
pub use top_call::run;
