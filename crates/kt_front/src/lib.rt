//! The tools from the tables to ground-up losses, and those between the texts and the files of tables.
#![tactic(auto)]

mod conversion;
mod eve;
mod footprint;
mod getmodel;
mod gulcalc;
mod stops;
mod text_source;
mod to_file;
mod whole_source;

pub use conversion::convert;
pub use eve::write_events;
pub use footprint::footprint_to_text;
pub use getmodel::write_distributions;
pub use gulcalc::write_ground_up;
pub use stops::{load_stop, table_stop};
