//! The tables of a summary stream: event losses, period losses, average annual losses and exceedance curves.
#![tactic(auto)]

mod event_losses;
pub mod laws;
mod period_losses;
mod shared;
mod stage;
mod stop;
mod table;
mod tools;

pub use event_losses::write_event_losses;
pub use period_losses::write_period_losses;
pub use stop::cell_stop;
pub use table::{PeriodTable, append_curve, append_table};
pub use tools::{write_average_annual_losses, write_exceedance_curve};
