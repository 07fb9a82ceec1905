//! The rows of all tables that a run has loaded.
//! The rule: docs/TABLES.md, "Files".
ghost use Rattle.std.specs.Prelude.{◌≡◌};
ghost use Rattle.kt_rec.specs.Places.{row_count};
ghost use Rattle.kt_rec.specs.Rows.{rows_of, financial_rows, no_rows, no_financial_rows};
ghost use Rattle.kt_rec.specs.TableNames.{IsTableId};

use crate::exposure::{Coverage, Item};
use crate::financial::{FmPolicytc, FmProfile, FmProgramme, FmXref};
use crate::hazard::{DamageBin, Event, FootprintIdx, Random, Vulnerability};
use crate::periods::{Occurrence, ReturnPeriod};
use crate::summary::{FmSummaryXref, GulSummaryXref};
use crate::table::{Table, TableId};
use std::alloc::Global;

/// The base and nine reinsurance stages.
pub const PROGRAMMES: usize = 10;

/// The three financial tables of the base or of a reinsurance stage.
#[derive(Drop)]
pub struct FinancialTables {
    /// The rows of `fm_programme`.
    pub programme: Vec<FmProgramme>,
    /// The rows of `fm_policytc`.
    pub policytc: Vec<FmPolicytc>,
    /// The rows of `fm_profile`.
    pub profile: Vec<FmProfile>,
}

/// The rows of each table. What is not loaded is an empty list or 0.
#[derive(Drop)]
pub struct Tables {
    /// The rows of `events`.
    pub events: Vec<Event>,
    /// The rows of `items`.
    pub items: Vec<Item>,
    /// The rows of `coverages`.
    pub coverages: Vec<Coverage>,
    /// The rows of `footprint_idx`.
    pub footprint_idx: Vec<FootprintIdx>,
    /// The rows of `vulnerability`.
    pub vulnerability: Vec<Vulnerability>,
    /// The rows of `damage_bin_dict`.
    pub damage_bin_dict: Vec<DamageBin>,
    /// The rows of `random`.
    pub random: Vec<Random>,
    /// The rows of `fm_xref`.
    pub fm_xref: Vec<FmXref>,
    /// The rows of `gulsummaryxref`.
    pub gulsummaryxref: Vec<GulSummaryXref>,
    /// The rows of `fmsummaryxref`.
    pub fmsummaryxref: Vec<FmSummaryXref>,
    /// The rows of `occurrence`.
    pub occurrence: Vec<Occurrence>,
    /// The rows of `returnperiods`.
    pub returnperiods: Vec<ReturnPeriod>,
    /// The financial tables of the base, at 0, and of each stage.
    pub financial: [FinancialTables; PROGRAMMES],
    /// The number of periods, which the header of `occurrence` gives.
    pub periods: u32,
    /// The size of the footprint file in bytes.
    pub footprint_size: u64,
}

// No rows yet.
fn no_financial_tables(alloc: Global) -> FinancialTables
    ensures { financial_rows result ≡ no_financial_rows }
{
    FinancialTables {
        programme: Vec::new(alloc),
        policytc: Vec::new(alloc),
        profile: Vec::new(alloc),
    }
}

impl Tables {
    /// No rows in any table. Takes no memory.
    pub fn new(alloc: Global) -> Self
        ensures absent { rows_of result ≡ no_rows }
    {
        Tables {
            events: Vec::new(alloc),
            items: Vec::new(alloc),
            coverages: Vec::new(alloc),
            footprint_idx: Vec::new(alloc),
            vulnerability: Vec::new(alloc),
            damage_bin_dict: Vec::new(alloc),
            random: Vec::new(alloc),
            fm_xref: Vec::new(alloc),
            gulsummaryxref: Vec::new(alloc),
            fmsummaryxref: Vec::new(alloc),
            occurrence: Vec::new(alloc),
            returnperiods: Vec::new(alloc),
            financial: [
                no_financial_tables(alloc),
                no_financial_tables(alloc),
                no_financial_tables(alloc),
                no_financial_tables(alloc),
                no_financial_tables(alloc),
                no_financial_tables(alloc),
                no_financial_tables(alloc),
                no_financial_tables(alloc),
                no_financial_tables(alloc),
                no_financial_tables(alloc),
            ],
            periods: 0,
            footprint_size: 0,
        }
    }

    /// How many rows a table of the base, at stage 0, or of a stage, 1 to 9, has. Of the footprint none is kept.
    pub fn count(&self, id: TableId) -> usize
        requires { IsTableId id }
        ensures value { result ≡ row_count (rows_of self.now) id }
    {
        let stage = id.stage as usize;
        match id.table {
            Table::Events => self.events.len(),
            Table::Items => self.items.len(),
            Table::Coverages => self.coverages.len(),
            Table::Footprint => 0,
            Table::FootprintIdx => self.footprint_idx.len(),
            Table::Vulnerability => self.vulnerability.len(),
            Table::DamageBinDict => self.damage_bin_dict.len(),
            Table::Random => self.random.len(),
            Table::FmProgramme => self.financial[stage].programme.len(),
            Table::FmPolicytc => self.financial[stage].policytc.len(),
            Table::FmProfile => self.financial[stage].profile.len(),
            Table::FmXref => self.fm_xref.len(),
            Table::GulSummaryXref => self.gulsummaryxref.len(),
            Table::FmSummaryXref => self.fmsummaryxref.len(),
            Table::Occurrence => self.occurrence.len(),
            Table::ReturnPeriods => self.returnperiods.len(),
        }
    }
}
