//! Keys of the rows of tables: those that are repeated, and those that another table lacks.
#![tactic(auto)]

mod keyed;
mod keys;
mod names;
mod naming;
mod need;
mod rows;
mod shared;
mod stages;
mod unit_table;
mod units;

pub use keyed::{KeyedRow, keys_of};
pub use keys::{key_checks, output_check};
pub use names::{coverage_check, damage_check, output_unit_check, profile_checks, summary_checks};
pub use naming::{Naming, names_of};
pub use need::{CheckStop, Need, Refusal};
pub use rows::{distinct_pairs, first_above, first_values, pair_set, set_of};
pub use stages::{STAGES, base, has_base, has_both, has_financial, policytc, profile, programme};
pub use unit_table::UnitTable;
pub use units::{next_units, target_units, top_layers, top_level, units_of};
