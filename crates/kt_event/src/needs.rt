//! What a run of all stages needs of the tables.
//! The rules: docs/COMMANDS.md, "chain".
ghost use Rattle.std.specs.Prelude.{◌≡◌, ◌≤◌};
ghost use Rattle.kt_event.specs.Needs.{chain_need as need_of_terms, chain_tables as tables_up_to, ground_up_tables, insured_tables, programme_tables, with_stages as set_with_stages, with_tables as set_with_tables};
ghost use Rattle.kt_block.specs.Terms.{AreTerms};

use kt_block::Terms;
use kt_checks::Need;
use kt_rec::{Perspective, Table, TableId, TableSet};

const GROUND_UP: [Table; 11] = [
    Table::Events,
    Table::Items,
    Table::Coverages,
    Table::Footprint,
    Table::FootprintIdx,
    Table::Vulnerability,
    Table::DamageBinDict,
    Table::Random,
    Table::GulSummaryXref,
    Table::Occurrence,
    Table::ReturnPeriods,
];

const INSURED: [Table; 5] = [
    Table::FmProgramme,
    Table::FmPolicytc,
    Table::FmProfile,
    Table::FmXref,
    Table::FmSummaryXref,
];

/// A set with these tables of the base more.
fn with_tables(set: TableSet, tables: &[Table]) -> TableSet
    ensures { result ≡ set_with_tables set 0 tables.now }
{
    let mut set = set;
    for table in tables {
        set.add(TableId {
            stage: 0,
            table: *table,
        });
    }
    set
}

/// A set with the tables of a stage's programme more.
fn with_stage(set: TableSet, stage: u32) -> TableSet
    requires { stage ≤ 9 }
    ensures { result ≡ set_with_tables set stage programme_tables }
{
    let mut set = set;
    set.add(TableId {
        stage,
        table: Table::FmProgramme,
    });
    set.add(TableId {
        stage,
        table: Table::FmPolicytc,
    });
    set.add(TableId {
        stage,
        table: Table::FmProfile,
    });
    set
}

/// A set with the tables of the first so many stages more.
fn with_stages(set: TableSet, stages: u32) -> TableSet
    requires { stages ≤ 9 }
    ensures { result ≡ set_with_stages set stages }
{
    let mut set = set;
    for stage in 0..stages {
        set = with_stage(set, stage + 1);
    }
    set
}

/// The tables of a run up to a last perspective, with so many stages.
fn chain_tables(last: Perspective, stages: u32) -> TableSet
    requires { stages ≤ 9 }
    ensures { result ≡ tables_up_to last stages }
{
    let ground_up = with_tables(TableSet::new(), &GROUND_UP);
    match last {
        Perspective::Gul => ground_up,
        Perspective::Il => with_tables(ground_up, &INSURED),
        Perspective::Ri => with_stages(with_tables(ground_up, &INSURED), stages),
    }
}

/// What a run of all stages needs of the tables: events, exposure, hazard, random numbers, occurrences, return periods and
/// the summaries of items; for insured losses the programme, its outputs and their summaries too, and for net losses the
/// programmes of the stages.
pub fn chain_need(terms: &Terms) -> Need
    requires { AreTerms terms.now }
    ensures { result ≡ need_of_terms terms.now }
{
    Need {
        loaded: chain_tables(terms.last, terms.stages),
        samples: terms.samples,
        rule: terms.rule,
        net: terms.has_net(),
    }
}
