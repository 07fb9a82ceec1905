//! Indexes over rows: the rows of a key, and keys of two columns.
#![tactic(auto)]

mod by_key;
mod keys;
mod once;

pub use by_key::{ByKey, Keyed, is_by_key, rows_between, rows_near, rows_of};
pub use keys::pair_key;
pub use once::keep_once;
