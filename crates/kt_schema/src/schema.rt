//! The schemas of the tables: their numbers, whether a file has a header, and the kinds of their columns.
//! The rule: docs/TABLES.md, "Columns".

use kt_cells::{Kind, Term};

/// A table of `N` columns.
#[derive(Clone, Copy)]
pub struct Schema<const N: usize> {
    /// The table's number.
    pub number: u32,
    /// Whether its file begins with a header.
    pub header: bool,
    /// The kinds of its columns, in order: a place of the program's own, so that code that is copied for a table knows them.
    pub kinds: &'static [Kind; N],
}

/// The schema of `Events`.
pub const EVENTS: Schema<1> = Schema {
    number: 1,
    header: false,
    kinds: &[Kind::Id],
};

/// The schema of `Items`.
pub const ITEMS: Schema<5> = Schema {
    number: 2,
    header: false,
    kinds: &[Kind::Id, Kind::Id, Kind::Id, Kind::Id, Kind::Id],
};

/// The schema of `Coverages`.
pub const COVERAGES: Schema<2> = Schema {
    number: 3,
    header: true,
    kinds: &[Kind::Id, Kind::Tiv],
};

/// The schema of `Footprint`.
pub const FOOTPRINT: Schema<4> = Schema {
    number: 4,
    header: true,
    kinds: &[Kind::Id, Kind::Id, Kind::IntensityBin, Kind::Ppm],
};

/// The schema of `FootprintIdx`.
pub const FOOTPRINT_IDX: Schema<3> = Schema {
    number: 5,
    header: false,
    kinds: &[Kind::Id, Kind::Offset, Kind::Offset],
};

/// The schema of `Vulnerability`.
pub const VULNERABILITY: Schema<4> = Schema {
    number: 6,
    header: true,
    kinds: &[Kind::Id, Kind::IntensityBin, Kind::DamageBin, Kind::Ppm],
};

/// The schema of `DamageBinDict`.
pub const DAMAGE_BIN_DICT: Schema<5> = Schema {
    number: 7,
    header: true,
    kinds: &[
        Kind::DamageBin,
        Kind::Ppm,
        Kind::Ppm,
        Kind::Ppm,
        Kind::Count,
    ],
};

/// The schema of `Random`.
pub const RANDOM: Schema<1> = Schema {
    number: 8,
    header: true,
    kinds: &[Kind::Ppm],
};

/// The schema of `FmProgramme`.
pub const FM_PROGRAMME: Schema<3> = Schema {
    number: 9,
    header: false,
    kinds: &[Kind::Id, Kind::Level, Kind::Id],
};

/// The schema of `FmPolicytc`.
pub const FM_POLICYTC: Schema<4> = Schema {
    number: 10,
    header: false,
    kinds: &[Kind::Layer, Kind::Level, Kind::Id, Kind::Id],
};

/// The schema of `FmProfile`.
pub const FM_PROFILE: Schema<10> = Schema {
    number: 11,
    header: true,
    kinds: &[
        Kind::Id,
        Kind::Rule,
        Kind::Term(Term::Deductible),
        Kind::Amount,
        Kind::Amount,
        Kind::Amount,
        Kind::Term(Term::Limit),
        Kind::Ppm,
        Kind::Ppm,
        Kind::Ppm,
    ],
};

/// The schema of `FmXref`.
pub const FM_XREF: Schema<3> = Schema {
    number: 12,
    header: false,
    kinds: &[Kind::Id, Kind::Id, Kind::Layer],
};

/// The schema of `GulSummaryXref`.
pub const GUL_SUMMARY_XREF: Schema<3> = Schema {
    number: 13,
    header: false,
    kinds: &[Kind::Id, Kind::Id, Kind::SummarySet],
};

/// The schema of `FmSummaryXref`.
pub const FM_SUMMARY_XREF: Schema<3> = Schema {
    number: 14,
    header: false,
    kinds: &[Kind::Id, Kind::Id, Kind::SummarySet],
};

/// The schema of `Occurrence`.
pub const OCCURRENCE: Schema<5> = Schema {
    number: 15,
    header: true,
    kinds: &[Kind::Id, Kind::Id, Kind::Count, Kind::Count, Kind::Count],
};

/// The schema of `ReturnPeriods`.
pub const RETURN_PERIODS: Schema<1> = Schema {
    number: 16,
    header: false,
    kinds: &[Kind::Id],
};

/// The kinds of a record of the footprint file, which leaves the event out.
pub const FOOTPRINT_RECORD: [Kind; 3] = [Kind::Id, Kind::IntensityBin, Kind::Ppm];
