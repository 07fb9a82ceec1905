//! The tables as files and as texts: their schemas, and the ways from one form to the other.
#![tactic(auto)]

mod footprint;
mod headings;
mod index;
mod laws;
mod loading;
mod record_sinks;
mod rows;
mod schema;
mod shared;
mod to_bin;
mod to_csv;
mod typed_row;
mod visit;

pub use footprint::footprint_to_csv;
pub use headings::heading;
pub use index::IndexRecords;
pub use kt_cells::{Cause, Kind, TableStop, Term, Values};
pub use laws::{files_are_read_back, texts_are_read_back, texts_go_round};
pub use loading::read_bin;
pub use record_sinks::{FootprintRecords, Judged, Records};
pub use rows::schema_rows;
pub use schema::{
    COVERAGES, DAMAGE_BIN_DICT, EVENTS, FM_POLICYTC, FM_PROFILE, FM_PROGRAMME, FM_SUMMARY_XREF,
    FM_XREF, FOOTPRINT, FOOTPRINT_IDX, FOOTPRINT_RECORD, GUL_SUMMARY_XREF, ITEMS, OCCURRENCE,
    RANDOM, RETURN_PERIODS, Schema, VULNERABILITY,
};
pub use to_bin::{csv_to_bin, push_header_part};
pub use to_csv::{MOST_PERIODS, bin_to_csv, body, extra};
pub use typed_row::TypedRow;
pub use visit::{RowVisitor, TableVisitor, visit_table};
