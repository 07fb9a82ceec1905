//! The summary sets of a run.
//! The rules: docs/COMMANDS.md, "chain".
ghost use Rattle.std.specs.Prelude.{◌≡◌, ◌++◌, map, IfOk, OnOk};
ghost use Rattle.std.specs.List.{flat_map};
ghost use Rattle.kt_block.specs.Terms.{output_perspectives, run_sets, sets_of, summary_set};

use kt_block::{SummarySet, set_numbers};
use kt_rec::Perspective;
use kt_tables::Portfolio;
use std::alloc::{AllocError, Global};

/// Puts the summary sets of a perspective with these numbers behind others. An error is want of memory.
fn push_numbered(
    perspective: Perspective,
    numbers: &[u32],
    sets: &mut Vec<SummarySet>,
) -> Result<(), AllocError>
    ensures { OnOk result (sets.new.items ≡ sets.old.items ++ map (summary_set perspective) numbers.now) }
{
    for set in numbers {
        sets.push(SummarySet {
            perspective,
            set: *set,
        })?;
    }
    Ok(())
}

/// Puts the summary sets that a perspective has behind others, rising. An error is want of memory.
fn push_sets(
    alloc: Global,
    portfolio: &Portfolio,
    perspective: Perspective,
    sets: &mut Vec<SummarySet>,
) -> Result<(), AllocError>
    ensures { OnOk result (sets.new.items ≡ sets.old.items ++ sets_of portfolio.now.rows perspective) }
{
    let numbers = set_numbers(alloc, portfolio, perspective)?;
    push_numbered(perspective, &numbers, sets)
}

/// Puts the summary sets of the outputs of a run behind others: those of insured and of net losses, where the run has them.
fn push_output_sets(
    alloc: Global,
    portfolio: &Portfolio,
    last: Perspective,
    sets: &mut Vec<SummarySet>,
) -> Result<(), AllocError>
    ensures { OnOk result (sets.new.items ≡ sets.old.items ++ flat_map (sets_of portfolio.now.rows) (output_perspectives last)) }
{
    match last {
        Perspective::Gul => Ok(()),
        Perspective::Il => push_sets(alloc, portfolio, Perspective::Il, sets),
        Perspective::Ri => {
            push_sets(alloc, portfolio, Perspective::Il, sets)?;
            push_sets(alloc, portfolio, Perspective::Ri, sets)
        }
    }
}

/// The summary sets of a run up to a last perspective: perspective by perspective, and by rising set. An error is want of
/// memory.
pub(crate) fn run_sets(
    alloc: Global,
    portfolio: &Portfolio,
    last: Perspective,
) -> Result<Vec<SummarySet>, AllocError>
    ensures value { IfOk result (λ sets. sets.items ≡ run_sets portfolio.now.rows last) }
{
    let mut sets = Vec::new(alloc);
    push_sets(alloc, portfolio, Perspective::Gul, &mut sets)?;
    push_output_sets(alloc, portfolio, last, &mut sets)?;
    Ok(sets)
}
