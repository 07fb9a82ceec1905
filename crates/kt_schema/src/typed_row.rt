//! The rows of the tables, made of their values.
//! The rule: docs/TABLES.md, "Columns".
ghost use Rattle.std.specs.Prelude.{◌≡◌, ◌<◌, ℕ, List, Ok, map, length};
ghost use Rattle.kt_cells.specs.Ranges.{FitsBytes};
ghost use Rattle.kt_rec.specs.declared.table.Table.{Table};
ghost use Rattle.kt_rec.specs.declared.table.Table.TheVariants as table;
ghost use Rattle.kt_schema.specs.Loading.{HasRows, LoadsTable, loaded_rows};
ghost use Rattle.kt_schema.specs.Tables.{kinds_of};
ghost use Rattle.kt_schema.specs.Rows.{event_values, item_values, coverage_values, footprint_idx_values, vulnerability_values, damage_bin_values, random_values, fm_programme_values, fm_policytc_values, fm_profile_values, fm_xref_values, gul_summary_xref_values, fm_summary_xref_values, occurrence_values, return_period_values};

use kt_rec::{
    Coverage, DamageBin, Event, FinancialTables, FmPolicytc, FmProfile, FmProgramme, FmSummaryXref,
    FmXref, FootprintIdx, GulSummaryXref, Item, Occurrence, Random, ReturnPeriod, Tables,
    Vulnerability,
};
use std::mem::swap;

// The base and nine stages have financial tables.
fn are_ten(tables: &Tables)
    ensures { length tables.now.financial ≡ 10 }
{
    let parts: &[FinancialTables] = &tables.financial;
    let _count = parts.len();
}

/// A row of `N` columns.
pub trait TypedRow<const N: usize>: Copy {
    // The table.
    ghost table: { Table };

    // The values of the columns.
    ghost values: { Self → List ℕ };

    /// The row with these values.
    fn from_values(row: &[u64; N]) -> Self
        requires { FitsBytes (kinds_of table) row.now }
        ensures { values result ≡ row.now };

    /// Puts the rows of a file into the list of the table, of the base, at 0, or of a stage, in place of what is there, and for
    /// `occurrence` the number that its header ends with. The list that is handed over has then what was there.
    fn keep(into: &mut Tables, stage: usize, extra: u32, list: &mut Vec<Self>)
        requires { stage < 10 }
        ensures { (bytes : List ℕ) → HasRows table bytes (map values list.old.items) → loaded_rows table bytes ≡ Ok (extra, map values list.old.items) → LoadsTable table stage bytes into.old into.new };
}

impl TypedRow<1> for Event {
    ghost table = { table.Events };

    ghost values = { event_values };

    fn from_values(row: &[u64; 1]) -> Self {
        let [event_id] = *row;
        Event {
            event_id: event_id as u32,
        }
    }

    fn keep(into: &mut Tables, _stage: usize, _extra: u32, list: &mut Vec<Self>) {
        swap(&mut into.events, list);
    }
}

impl TypedRow<5> for Item {
    ghost table = { table.Items };

    ghost values = { item_values };

    fn from_values(row: &[u64; 5]) -> Self {
        let [
            item_id,
            coverage_id,
            areaperil_id,
            vulnerability_id,
            group_id,
        ] = *row;
        Item {
            item_id: item_id as u32,
            coverage_id: coverage_id as u32,
            areaperil_id: areaperil_id as u32,
            vulnerability_id: vulnerability_id as u32,
            group_id: group_id as u32,
        }
    }

    fn keep(into: &mut Tables, _stage: usize, _extra: u32, list: &mut Vec<Self>) {
        swap(&mut into.items, list);
    }
}

impl TypedRow<2> for Coverage {
    ghost table = { table.Coverages };

    ghost values = { coverage_values };

    fn from_values(row: &[u64; 2]) -> Self {
        let [coverage_id, tiv] = *row;
        Coverage {
            coverage_id: coverage_id as u32,
            tiv,
        }
    }

    fn keep(into: &mut Tables, _stage: usize, _extra: u32, list: &mut Vec<Self>) {
        swap(&mut into.coverages, list);
    }
}

impl TypedRow<3> for FootprintIdx {
    ghost table = { table.FootprintIdx };

    ghost values = { footprint_idx_values };

    fn from_values(row: &[u64; 3]) -> Self {
        let [event_id, offset, size] = *row;
        FootprintIdx {
            event_id: event_id as u32,
            offset,
            size,
        }
    }

    fn keep(into: &mut Tables, _stage: usize, _extra: u32, list: &mut Vec<Self>) {
        swap(&mut into.footprint_idx, list);
    }
}

impl TypedRow<4> for Vulnerability {
    ghost table = { table.Vulnerability };

    ghost values = { vulnerability_values };

    fn from_values(row: &[u64; 4]) -> Self {
        let [vulnerability_id, intensity_bin_id, damage_bin_id, prob] = *row;
        Vulnerability {
            vulnerability_id: vulnerability_id as u32,
            intensity_bin_id: intensity_bin_id as u32,
            damage_bin_id: damage_bin_id as u32,
            prob: prob as u32,
        }
    }

    fn keep(into: &mut Tables, _stage: usize, _extra: u32, list: &mut Vec<Self>) {
        swap(&mut into.vulnerability, list);
    }
}

impl TypedRow<5> for DamageBin {
    ghost table = { table.DamageBinDict };

    ghost values = { damage_bin_values };

    fn from_values(row: &[u64; 5]) -> Self {
        let [bin_index, bin_from, bin_to, interpolation, interval_type] = *row;
        DamageBin {
            bin_index: bin_index as u32,
            bin_from: bin_from as u32,
            bin_to: bin_to as u32,
            interpolation: interpolation as u32,
            interval_type: interval_type as u32,
        }
    }

    fn keep(into: &mut Tables, _stage: usize, _extra: u32, list: &mut Vec<Self>) {
        swap(&mut into.damage_bin_dict, list);
    }
}

impl TypedRow<1> for Random {
    ghost table = { table.Random };

    ghost values = { random_values };

    fn from_values(row: &[u64; 1]) -> Self {
        let [random] = *row;
        Random {
            random: random as u32,
        }
    }

    fn keep(into: &mut Tables, _stage: usize, _extra: u32, list: &mut Vec<Self>) {
        swap(&mut into.random, list);
    }
}

impl TypedRow<3> for FmProgramme {
    ghost table = { table.FmProgramme };

    ghost values = { fm_programme_values };

    fn from_values(row: &[u64; 3]) -> Self {
        let [from_agg_id, level_id, to_agg_id] = *row;
        FmProgramme {
            from_agg_id: from_agg_id as u32,
            level_id: level_id as u32,
            to_agg_id: to_agg_id as u32,
        }
    }

    fn keep(into: &mut Tables, stage: usize, _extra: u32, list: &mut Vec<Self>) {
        are_ten(into);
        swap(&mut into.financial[stage].programme, list);
    }
}

impl TypedRow<4> for FmPolicytc {
    ghost table = { table.FmPolicytc };

    ghost values = { fm_policytc_values };

    fn from_values(row: &[u64; 4]) -> Self {
        let [layer_id, level_id, agg_id, policytc_id] = *row;
        FmPolicytc {
            layer_id: layer_id as u32,
            level_id: level_id as u32,
            agg_id: agg_id as u32,
            policytc_id: policytc_id as u32,
        }
    }

    fn keep(into: &mut Tables, stage: usize, _extra: u32, list: &mut Vec<Self>) {
        are_ten(into);
        swap(&mut into.financial[stage].policytc, list);
    }
}

impl TypedRow<10> for FmProfile {
    ghost table = { table.FmProfile };

    ghost values = { fm_profile_values };

    fn from_values(row: &[u64; 10]) -> Self {
        let [
            policytc_id,
            calcrule_id,
            deductible1,
            deductible2,
            deductible3,
            attachment1,
            limit1,
            share1,
            share2,
            share3,
        ] = *row;
        FmProfile {
            policytc_id: policytc_id as u32,
            calcrule_id: calcrule_id as u32,
            deductible1,
            deductible2,
            deductible3,
            attachment1,
            limit1,
            share1: share1 as u32,
            share2: share2 as u32,
            share3: share3 as u32,
        }
    }

    fn keep(into: &mut Tables, stage: usize, _extra: u32, list: &mut Vec<Self>) {
        are_ten(into);
        swap(&mut into.financial[stage].profile, list);
    }
}

impl TypedRow<3> for FmXref {
    ghost table = { table.FmXref };

    ghost values = { fm_xref_values };

    fn from_values(row: &[u64; 3]) -> Self {
        let [output_id, agg_id, layer_id] = *row;
        FmXref {
            output_id: output_id as u32,
            agg_id: agg_id as u32,
            layer_id: layer_id as u32,
        }
    }

    fn keep(into: &mut Tables, _stage: usize, _extra: u32, list: &mut Vec<Self>) {
        swap(&mut into.fm_xref, list);
    }
}

impl TypedRow<3> for GulSummaryXref {
    ghost table = { table.GulSummaryXref };

    ghost values = { gul_summary_xref_values };

    fn from_values(row: &[u64; 3]) -> Self {
        let [item_id, summary_id, summaryset_id] = *row;
        GulSummaryXref {
            item_id: item_id as u32,
            summary_id: summary_id as u32,
            summaryset_id: summaryset_id as u32,
        }
    }

    fn keep(into: &mut Tables, _stage: usize, _extra: u32, list: &mut Vec<Self>) {
        swap(&mut into.gulsummaryxref, list);
    }
}

impl TypedRow<3> for FmSummaryXref {
    ghost table = { table.FmSummaryXref };

    ghost values = { fm_summary_xref_values };

    fn from_values(row: &[u64; 3]) -> Self {
        let [output_id, summary_id, summaryset_id] = *row;
        FmSummaryXref {
            output_id: output_id as u32,
            summary_id: summary_id as u32,
            summaryset_id: summaryset_id as u32,
        }
    }

    fn keep(into: &mut Tables, _stage: usize, _extra: u32, list: &mut Vec<Self>) {
        swap(&mut into.fmsummaryxref, list);
    }
}

impl TypedRow<5> for Occurrence {
    ghost table = { table.Occurrence };

    ghost values = { occurrence_values };

    fn from_values(row: &[u64; 5]) -> Self {
        let [event_id, period_no, occ_year, occ_month, occ_day] = *row;
        Occurrence {
            event_id: event_id as u32,
            period_no: period_no as u32,
            occ_year: occ_year as u32,
            occ_month: occ_month as u32,
            occ_day: occ_day as u32,
        }
    }

    fn keep(into: &mut Tables, _stage: usize, extra: u32, list: &mut Vec<Self>) {
        swap(&mut into.occurrence, list);
        into.periods = extra;
    }
}

impl TypedRow<1> for ReturnPeriod {
    ghost table = { table.ReturnPeriods };

    ghost values = { return_period_values };

    fn from_values(row: &[u64; 1]) -> Self {
        let [return_period] = *row;
        ReturnPeriod {
            return_period: return_period as u32,
        }
    }

    fn keep(into: &mut Tables, _stage: usize, _extra: u32, list: &mut Vec<Self>) {
        swap(&mut into.returnperiods, list);
    }
}
