//! The tables, their numbers and files, and the order in which they are loaded.
//! The rules: docs/TABLES.md, "Tables", "Files".
ghost use Rattle.std.specs.Prelude.{◌≡◌};
ghost use Rattle.kt_rec.specs.TableNames.{number_of, name_of, file_of};

use crate::descriptions::describe;

/// A table.
#[derive(Clone, Copy, Debug)]
pub enum Table {
    /// The events of a run.
    Events = 1,
    /// The items.
    Items = 2,
    /// The coverages and their values.
    Coverages = 3,
    /// The hazard of each event.
    Footprint = 4,
    /// Where the records of each event stand in the footprint.
    FootprintIdx = 5,
    /// The damage at each intensity.
    Vulnerability = 6,
    /// The damage bins.
    DamageBinDict = 7,
    /// The random numbers.
    Random = 8,
    /// How losses are added up.
    FmProgramme = 9,
    /// The layers of each unit.
    FmPolicytc = 10,
    /// The rules and terms.
    FmProfile = 11,
    /// The outputs of the financial module.
    FmXref = 12,
    /// The summaries of items.
    GulSummaryXref = 13,
    /// The summaries of outputs.
    FmSummaryXref = 14,
    /// When each event occurs.
    Occurrence = 15,
    /// The return periods of a curve.
    ReturnPeriods = 16,
}

impl Table {
    /// The table's number, 1 to 16.
    pub fn number(self) -> u32
        ensures { result ≡ number_of self }
    {
        self as u32
    }

    /// The table's name.
    pub fn name(self) -> &'static [u8]
        ensures { result.now ≡ name_of self }
    {
        describe(self).name
    }

    /// The name of the table's file in a run's folder.
    pub fn file_name(self) -> &'static [u8]
        ensures { result.now ≡ file_of self }
    {
        describe(self).file
    }
}

/// A table of the base, or of a reinsurance stage. Its order is that of loading: the base by number, then stage by stage.
#[derive(Clone, Copy)]
pub struct TableId {
    /// 0 for the base; a stage, 1 to 9, has `fm_programme`, `fm_policytc` and `fm_profile` alone.
    pub stage: u32,
    /// The table.
    pub table: Table,
}
