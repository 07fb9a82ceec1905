//! The rows of the tables, and the names and sets of tables.
#![tactic(auto)]

mod cause;
mod curve;
mod descriptions;
mod exposure;
mod financial;
mod foot_rows;
mod hazard;
mod kind;
pub mod laws;
mod name;
mod order;
mod periods;
mod perspective;
mod shared;
mod summary;
mod table;
mod table_set;
mod tables;

pub use cause::Cause;
pub use curve::Curve;
pub use descriptions::{
    COVERAGES, DAMAGE_BIN_DICT, Described, EVENTS, FM_POLICYTC, FM_PROFILE, FM_PROGRAMME,
    FM_SUMMARY_XREF, FM_XREF, FOOTPRINT, FOOTPRINT_IDX, GUL_SUMMARY_XREF, ITEMS, OCCURRENCE,
    RANDOM, RETURN_PERIODS, TABLES, VULNERABILITY, describe,
};
pub use exposure::{Coverage, Item};
pub use financial::{FmPolicytc, FmProfile, FmProgramme, FmXref};
pub use foot_rows::{ModelStop, RowCause};
pub use hazard::{DamageBin, Event, FootRow, Footprint, FootprintIdx, Random, Vulnerability};
pub use kind::{Kind, Term, checked};
pub use name::Name;
pub use order::load_order;
pub use periods::{Occurrence, ReturnPeriod};
pub use perspective::{CellKey, Perspective};
pub use summary::{FmSummaryXref, GulSummaryXref};
pub use table::{Table, TableId};
pub use table_set::TableSet;
pub use tables::{FinancialTables, PROGRAMMES, Tables};
