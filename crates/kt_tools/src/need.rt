//! What a command needs of the tables.
//! The rules: docs/COMMANDS.md.
ghost use Rattle.std.specs.Prelude.{◌≡◌, ◌≤◌, Bool, Some};
ghost use Rattle.kt_tools.specs.Needs.{base_need as need_for_base, base_tables as tables_of_base, command_need as need_of_command, need_of as need_for, programme_tables as tables_of_programme, summary_tables as tables_of_summaries};
ghost use Rattle.kt_words.specs.Command.{IsCommand};
ghost use Rattle.kt_words.specs.declared.command.Command.TheVariants as Command;

use kt_checks::Need;
use kt_event::{Terms, chain_need};
use kt_rec::{Table, TableId, TableSet};
use kt_words::Command;

/// These tables of the base.
fn base_tables(tables: &[Table]) -> TableSet
    ensures { result ≡ tables_of_base tables.now }
{
    let mut set = TableSet::new();
    for table in tables {
        set.add(TableId {
            stage: 0,
            table: *table,
        });
    }
    set
}

/// Items and coverages with the outputs, and the programme of the base, at 0, or of a stage with its terms and profiles.
fn programme_tables(stage: u32) -> TableSet
    requires { stage ≤ 9 }
    ensures { result ≡ tables_of_programme stage }
{
    let mut set = base_tables(&[Table::Items, Table::Coverages, Table::FmXref]);
    set.add(TableId {
        stage,
        table: Table::FmProgramme,
    });
    set.add(TableId {
        stage,
        table: Table::FmPolicytc,
    });
    set.add(TableId {
        stage,
        table: Table::FmProfile,
    });
    set
}

/// Items and coverages with the summaries of items, or with the programme, the outputs and their summaries.
fn summary_tables(items: bool) -> TableSet
    ensures { result ≡ tables_of_summaries items }
{
    if items {
        base_tables(&[Table::Items, Table::Coverages, Table::GulSummaryXref])
    } else {
        base_tables(&[
            Table::Items,
            Table::Coverages,
            Table::FmProgramme,
            Table::FmXref,
            Table::FmSummaryXref,
        ])
    }
}

/// These tables, where outputs belong to items or units by an allocation rule.
fn need_of(loaded: TableSet, rule: u32) -> Need
    ensures { result ≡ need_for loaded rule }
{
    Need {
        loaded,
        samples: 0,
        rule,
        net: false,
    }
}

/// These tables of the base, whatever the outputs.
fn base_need(tables: &[Table]) -> Need
    ensures { result ≡ need_for_base tables.now }
{
    need_of(base_tables(tables), 0)
}

/// The tables of the hazard and of the items.
fn hazard_need() -> Need
    ensures { need_of_command Command.Getmodel ≡ Some result }
{
    base_need(&[
        Table::Items,
        Table::Footprint,
        Table::FootprintIdx,
        Table::Vulnerability,
        Table::DamageBinDict,
    ])
}

/// The tables of the exposure, of the damage bins and of the random numbers, for so many samples.
fn sampling_need(samples: u32) -> Need
    ensures { (cut : Bool) → need_of_command (Command.Gulcalc samples cut) ≡ Some result }
{
    let loaded = base_tables(&[
        Table::Items,
        Table::Coverages,
        Table::DamageBinDict,
        Table::Random,
    ]);
    Need {
        loaded,
        samples,
        rule: 0,
        net: false,
    }
}

/// The programme of the base, at 0, or of a stage: the outputs of a stage are those of items, which the checks make with rule 2.
fn net_need(rule: u32, stage: u32) -> Need
    requires { stage ≤ 9 }
    ensures { need_of_command (Command.FmcalcNet rule stage) ≡ Some result }
{
    let rule = if stage == 0 { rule } else { 2 };
    need_of(programme_tables(stage), rule)
}

/// What a command needs of the tables, if anything.
pub(crate) fn command_need(command: Command) -> Option<Need>
    requires { IsCommand command }
    ensures { result ≡ need_of_command command }
{
    match command {
        Command::Fmcalc { rule } => Some(need_of(programme_tables(0), rule)),
        Command::FmcalcNet { rule, stage } => Some(net_need(rule, stage)),
        Command::Summarycalc { items, rule, .. } => Some(need_of(summary_tables(items), rule)),
        Command::Pltcalc { .. } => Some(base_need(&[Table::Occurrence])),
        Command::Aalcalc => Some(base_need(&[Table::Occurrence])),
        Command::Leccalc { .. } => Some(base_need(&[Table::Occurrence, Table::ReturnPeriods])),
        Command::Getmodel => Some(hazard_need()),
        Command::Gulcalc { samples, .. } => Some(sampling_need(samples)),
        Command::FootprintText => Some(base_need(&[Table::FootprintIdx])),
        Command::Eve { .. } => Some(base_need(&[Table::Events])),
        Command::Chain {
            samples,
            cut,
            rule,
            last,
            stages,
            ..
        } => Some(chain_need(&Terms {
            samples,
            cut,
            rule,
            last,
            stages,
        })),
        Command::Eltcalc { .. } | Command::Kat | Command::Convert(_) | Command::Gen { .. } => None,
    }
}
