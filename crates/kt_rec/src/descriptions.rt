//! What each table is: its name and file, its header, the most rows, and its columns.
//! The rules: docs/TABLES.md, "Tables", "Columns"; docs/CHECKS.md, "Sizes", "Keys".
ghost use Rattle.kt_rec.specs.Descriptions.{Describes};

use crate::kind::{Kind, Term};
use crate::table::Table;

/// What is said of a table.
#[derive(Clone, Copy)]
pub struct Described {
    /// Its name.
    pub name: &'static [u8],
    /// The name of its file in a run's folder.
    pub file: &'static [u8],
    /// The first line of its text: the names of its columns.
    pub heading: &'static [u8],
    /// Whether its file begins with a header.
    pub header: bool,
    /// The least number that the header may end with: 1 period for `occurrence`, else 0.
    pub least_extra: u32,
    /// The greatest.
    pub most_extra: u32,
    /// The most rows; 0 for the footprint, of which no row is kept.
    pub most_rows: u64,
    /// The kinds of its columns.
    pub kinds: &'static [Kind],
    /// The columns of its key, counted from 0.
    pub key: &'static [u8],
}

/// The kinds of the columns of `events`.
pub const EVENTS: &[Kind; 1] = &[Kind::Id];

/// The kinds of the columns of `items`.
pub const ITEMS: &[Kind; 5] = &[Kind::Id, Kind::Id, Kind::Id, Kind::Id, Kind::Id];

/// The kinds of the columns of `coverages`.
pub const COVERAGES: &[Kind; 2] = &[Kind::Id, Kind::Tiv];

/// The kinds of the columns of `footprint`.
pub const FOOTPRINT: &[Kind; 4] = &[Kind::Id, Kind::Id, Kind::IntensityBin, Kind::Ppm];

/// The kinds of the columns of `footprint_idx`.
pub const FOOTPRINT_IDX: &[Kind; 3] = &[Kind::Id, Kind::Offset, Kind::Offset];

/// The kinds of the columns of `vulnerability`.
pub const VULNERABILITY: &[Kind; 4] = &[Kind::Id, Kind::IntensityBin, Kind::DamageBin, Kind::Ppm];

/// The kinds of the columns of `damage_bin_dict`.
pub const DAMAGE_BIN_DICT: &[Kind; 5] = &[
    Kind::DamageBin,
    Kind::Ppm,
    Kind::Ppm,
    Kind::Ppm,
    Kind::Count,
];

/// The kinds of the columns of `random`.
pub const RANDOM: &[Kind; 1] = &[Kind::Ppm];

/// The kinds of the columns of `fm_programme`.
pub const FM_PROGRAMME: &[Kind; 3] = &[Kind::Id, Kind::Level, Kind::Id];

/// The kinds of the columns of `fm_policytc`.
pub const FM_POLICYTC: &[Kind; 4] = &[Kind::Layer, Kind::Level, Kind::Id, Kind::Id];

/// The kinds of the columns of `fm_profile`.
pub const FM_PROFILE: &[Kind; 10] = &[
    Kind::Id,
    Kind::Rule,
    Kind::Term(Term::Deductible),
    Kind::Amount,
    Kind::Amount,
    Kind::Amount,
    Kind::Term(Term::Limit),
    Kind::Ppm,
    Kind::Ppm,
    Kind::Ppm,
];

/// The kinds of the columns of `fm_xref`.
pub const FM_XREF: &[Kind; 3] = &[Kind::Id, Kind::Id, Kind::Layer];

/// The kinds of the columns of `gulsummaryxref`.
pub const GUL_SUMMARY_XREF: &[Kind; 3] = &[Kind::Id, Kind::Id, Kind::SummarySet];

/// The kinds of the columns of `fmsummaryxref`.
pub const FM_SUMMARY_XREF: &[Kind; 3] = &[Kind::Id, Kind::Id, Kind::SummarySet];

/// The kinds of the columns of `occurrence`.
pub const OCCURRENCE: &[Kind; 5] = &[Kind::Id, Kind::Id, Kind::Count, Kind::Count, Kind::Count];

/// The kinds of the columns of `returnperiods`.
pub const RETURN_PERIODS: &[Kind; 1] = &[Kind::Id];

/// The tables by number.
pub const TABLES: [Table; 16] = [
    Table::Events,
    Table::Items,
    Table::Coverages,
    Table::Footprint,
    Table::FootprintIdx,
    Table::Vulnerability,
    Table::DamageBinDict,
    Table::Random,
    Table::FmProgramme,
    Table::FmPolicytc,
    Table::FmProfile,
    Table::FmXref,
    Table::GulSummaryXref,
    Table::FmSummaryXref,
    Table::Occurrence,
    Table::ReturnPeriods,
];

/// What a table is.
#[tactic(auto, unfolding(crate::specs::Lines::line, crate::specs::Lines::fields_behind))]
pub fn describe(table: Table) -> Described
    ensures { Describes table result }
{
    match table {
        Table::Events => Described {
            name: b"events",
            file: b"input/events.bin",
            heading: b"event_id\n",
            header: false,
            least_extra: 0,
            most_extra: 0,
            most_rows: 1_000_000,
            kinds: EVENTS,
            key: &[0],
        },
        Table::Items => Described {
            name: b"items",
            file: b"input/items.bin",
            heading: b"item_id,coverage_id,areaperil_id,vulnerability_id,group_id\n",
            header: false,
            least_extra: 0,
            most_extra: 0,
            most_rows: 100_000,
            kinds: ITEMS,
            key: &[0],
        },
        Table::Coverages => Described {
            name: b"coverages",
            file: b"input/coverages.bin",
            heading: b"coverage_id,tiv\n",
            header: true,
            least_extra: 0,
            most_extra: 0,
            most_rows: 100_000,
            kinds: COVERAGES,
            key: &[0],
        },
        Table::Footprint => Described {
            name: b"footprint",
            file: b"static/footprint.bin",
            heading: b"event_id,areaperil_id,intensity_bin_id,prob\n",
            header: true,
            least_extra: 0,
            most_extra: 0,
            most_rows: 0,
            kinds: FOOTPRINT,
            key: &[],
        },
        Table::FootprintIdx => Described {
            name: b"footprint_idx",
            file: b"static/footprint.idx",
            heading: b"event_id,offset,size\n",
            header: false,
            least_extra: 0,
            most_extra: 0,
            most_rows: 1_000_000,
            kinds: FOOTPRINT_IDX,
            key: &[0],
        },
        Table::Vulnerability => Described {
            name: b"vulnerability",
            file: b"static/vulnerability.bin",
            heading: b"vulnerability_id,intensity_bin_id,damage_bin_id,prob\n",
            header: true,
            least_extra: 0,
            most_extra: 0,
            most_rows: 10_000_000,
            kinds: VULNERABILITY,
            key: &[0, 1, 2],
        },
        Table::DamageBinDict => Described {
            name: b"damage_bin_dict",
            file: b"static/damage_bin_dict.bin",
            heading: b"bin_index,bin_from,bin_to,interpolation,interval_type\n",
            header: true,
            least_extra: 0,
            most_extra: 0,
            most_rows: 1_000,
            kinds: DAMAGE_BIN_DICT,
            key: &[],
        },
        Table::Random => Described {
            name: b"random",
            file: b"static/random.bin",
            heading: b"random\n",
            header: true,
            least_extra: 0,
            most_extra: 0,
            most_rows: 10_000_000,
            kinds: RANDOM,
            key: &[],
        },
        Table::FmProgramme => Described {
            name: b"fm_programme",
            file: b"input/fm_programme.bin",
            heading: b"from_agg_id,level_id,to_agg_id\n",
            header: false,
            least_extra: 0,
            most_extra: 0,
            most_rows: 1_200_000,
            kinds: FM_PROGRAMME,
            key: &[0, 1],
        },
        Table::FmPolicytc => Described {
            name: b"fm_policytc",
            file: b"input/fm_policytc.bin",
            heading: b"layer_id,level_id,agg_id,policytc_id\n",
            header: false,
            least_extra: 0,
            most_extra: 0,
            most_rows: 1_200_000,
            kinds: FM_POLICYTC,
            key: &[0, 1, 2],
        },
        Table::FmProfile => Described {
            name: b"fm_profile",
            file: b"input/fm_profile.bin",
            heading: b"policytc_id,calcrule_id,deductible1,deductible2,deductible3,attachment1,limit1,share1,share2,share3\n",
            header: true,
            least_extra: 0,
            most_extra: 0,
            most_rows: 1_000_000,
            kinds: FM_PROFILE,
            key: &[0],
        },
        Table::FmXref => Described {
            name: b"fm_xref",
            file: b"input/fm_xref.bin",
            heading: b"output_id,agg_id,layer_id\n",
            header: false,
            least_extra: 0,
            most_extra: 0,
            most_rows: 100_000,
            kinds: FM_XREF,
            key: &[0],
        },
        Table::GulSummaryXref => Described {
            name: b"gulsummaryxref",
            file: b"input/gulsummaryxref.bin",
            heading: b"item_id,summary_id,summaryset_id\n",
            header: false,
            least_extra: 0,
            most_extra: 0,
            most_rows: 900_000,
            kinds: GUL_SUMMARY_XREF,
            key: &[0, 2],
        },
        Table::FmSummaryXref => Described {
            name: b"fmsummaryxref",
            file: b"input/fmsummaryxref.bin",
            heading: b"output_id,summary_id,summaryset_id\n",
            header: false,
            least_extra: 0,
            most_extra: 0,
            most_rows: 900_000,
            kinds: FM_SUMMARY_XREF,
            key: &[0, 2],
        },
        Table::Occurrence => Described {
            name: b"occurrence",
            file: b"input/occurrence.bin",
            heading: b"event_id,period_no,occ_year,occ_month,occ_day\n",
            header: true,
            least_extra: 1,
            most_extra: 100_000,
            most_rows: 1_000_000,
            kinds: OCCURRENCE,
            key: &[],
        },
        Table::ReturnPeriods => Described {
            name: b"returnperiods",
            file: b"input/returnperiods.bin",
            heading: b"return_period\n",
            header: false,
            least_extra: 0,
            most_extra: 0,
            most_rows: 1_000,
            kinds: RETURN_PERIODS,
            key: &[0],
        },
    }
}
