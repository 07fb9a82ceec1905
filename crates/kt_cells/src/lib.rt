//! Cells of tables: how one is read and written as text and as bytes, by its kind, and the rows that they make.
#![tactic(auto)]

mod front_value;
mod header;
mod laws;
mod lines;
mod plain_rows;
mod reader;
mod record_lines;
mod record_writer;
mod records;
mod row_sink;
mod shared;
mod stop;
mod text_rows;
mod values;

pub use header::{HEADER_WIDTH, push_header, read_header};
pub use kt_rec::{Cause, Kind, Term};
pub use laws::{
    headers_are_read_back, lines_are_read_back, records_are_read_back, slices_give_slices,
    texts_are_in_range,
};
pub use reader::read_grid;
pub use record_lines::push_record_lines;
pub use record_writer::push_record;
pub use records::read_records;
pub use row_sink::RowSink;
pub use stop::TableStop;
pub use text_rows::{TextFront, read_behind, read_behind_heading, read_front, read_text};
pub use values::Values;
