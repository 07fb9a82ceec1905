//! Loading the tables of a run from its files.
#![tactic(auto)]

mod event_rows;
mod file;
mod held_rows;
pub mod laws;
mod loading;
mod naming;
mod round_rows;
mod shared;
mod spans;
mod stop;
mod table;

pub use event_rows::foot_rows;
pub use kt_rec::load_order;
pub use loading::load;
pub use naming::file_name;
pub use round_rows::RoundRows;
pub use stop::LoadStop;
