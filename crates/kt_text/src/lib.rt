//! Number texts, and the fields of a CSV text.
#![tactic(auto)]

mod bad_text;
mod columns;
mod count;
mod decimal;
mod digits;
mod front_digits;
mod front_number;
mod grid;
mod laws;
mod plain;
mod records;
mod scaling;
mod trimming;

pub use bad_text::BadText;
pub use columns::{FieldStop, fields};
pub use count::read_count;
pub use decimal::read_decimal;
pub use front_number::{FrontNumber, front_amount, front_count};
pub use grid::Grid;
pub use laws::{
    amounts_are_read_back, counts_are_read_back, fields_stay_fields, rows_are_read_back,
};
pub use plain::{behind_field, behind_heading, field_length, first_field};
pub use records::{next_record, reader_of, record_field};
