//! What makes the parts of a round.
//! The rules: docs/ARCHITECTURE.md, "A run of all stages".
ghost use Rattle.std.specs.Prelude.{◌≡◌, ◌≤◌, ◌<◌, ◌+◌, ◌*◌, All, IfOk, drop, length, min, take, true};
ghost use Rattle.std.specs.List.{AllByRecursion};
ghost use Rattle.kt_block.specs.Block.{AreSummaries};
ghost use Rattle.kt_event.specs.Plan.{IsPlan, terms_of};
ghost use Rattle.kt_files.specs.MadeRows.{AreRowsOf};
ghost use Rattle.kt_fold.specs.Folds.{IsGoodPart};
ghost use Rattle.kt_keys.specs.Refusals.{is_loaded};
ghost use Rattle.kt_rec.specs.declared.table.Table.TheVariants as table;
ghost use Rattle.kt_stream.specs.Pairs.{IsId};
ghost use Rattle.kt_chain.specs.Rounds.{part_count, part_events, part_of};

use crate::text_fold::TextPart;
use kt_event::{Plan, event_block};
use kt_files::{OutputFile, make_rows};
use kt_fold::{PartBlock, ReadyPart, RefusedRow};
use kt_load::RoundRows;
use kt_out::Gate;
use kt_part::Work;
use kt_rec::ModelStop;
use kt_stream::Records;
use kt_tables::Portfolio;
use std::alloc::{AllocError, Global};
use std::marker::Model;

/// The events of a round with their rows, and what blocks are made of. Contracts see the terms, the rows of the tables, the events
/// and how many of them a part has.
#[derive(Drop)]
pub(crate) struct RoundWork<'a, G> {
    pub(crate) gate: &'a G,
    pub(crate) alloc: Global,
    pub(crate) portfolio: &'a Portfolio,
    pub(crate) plan: &'a Plan,
    pub(crate) given: &'a RoundRows,
    pub(crate) batch: u32,
    /// The files whose rows are made with the part.
    pub(crate) files: &'a [OutputFile],
    /// Whether the cells of each event by itself are made, so that the fold can take them over.
    pub(crate) ahead: bool,
}

impl<'a, G> Model for RoundWork<'a, G> {
    ghost use Rattle.kt_chain.specs.Rounds.{AreParts, RoundParts};
    ghost use Rattle.kt_event.specs.Plan.{terms_of};

    ghost Value = { RoundParts };

    ghost view = { λ w. record { terms = terms_of w.plan.now; rows = w.portfolio.now.rows; given = w.given.now; batch = w.batch } };

    ghost invariant = { λ w. AreParts w.portfolio.now w.plan.now w.given.now w.batch };
}

/// The places of the events of a part in a round of so many: that of the first, and that behind the last.
fn places_of(events: u32, batch: u32, part: u32) -> (u32, u32)
    requires some { 1 ≤ batch }
    requires few { batch ≤ 4 }
    requires within { part < part_count batch events }
    requires round { events ≤ 64 }
    ensures first { result.0 ≡ part * batch }
    ensures behind { result.1 ≡ min events (part * batch + batch) }
{
    let first = part * batch;
    (first, events.min(first + batch))
}

/// The blocks of the events from one place up to another, up to the first whose rows are refused.
fn part_between(
    alloc: Global,
    portfolio: &Portfolio,
    plan: &Plan,
    given: &RoundRows,
    first: u32,
    behind: u32,
) -> Result<PartBlock, AllocError>
    requires plan { IsPlan portfolio.now plan.now }
    requires events { All (λ one. IsId one.event) given.now }
    requires within { behind ≤ length given.now }
    ensures value { IfOk result (λ part. part ≡ part_of (terms_of plan.now) portfolio.now.rows (drop first (take behind given.now))) }
    ensures good { IfOk result (λ part. AllByRecursion (λ block. AreSummaries (terms_of plan.now).samples block.summaries) part.blocks) }
{
    let mut blocks = Records::new(alloc);
    for n in first..behind {
        let event = given.event(n);
        match event_block(alloc, portfolio, plan, event, given.rows(n)) {
            Ok(block) => blocks.push(block)?,
            Err(ModelStop::Row { row, cause }) => {
                return Ok(PartBlock {
                    blocks,
                    refused: Some(RefusedRow { event, row, cause }),
                });
            }
            Err(ModelStop::OutOfMemory) => return Err(AllocError),
        }
    }
    Ok(PartBlock {
        blocks,
        refused: None,
    })
}

/// The blocks of the events of a part, up to the first whose rows are refused.
fn part_of(
    alloc: Global,
    portfolio: &Portfolio,
    plan: &Plan,
    given: &RoundRows,
    batch: u32,
    part: u32,
) -> Result<PartBlock, AllocError>
    requires plan { IsPlan portfolio.now plan.now }
    requires events { All (λ one. IsId one.event) given.now }
    requires some { 1 ≤ batch }
    requires few { batch ≤ 4 }
    requires within { part < part_count batch (length given.now) }
    requires round { length given.now ≤ 64 }
    ensures value { IfOk result (λ made. made ≡ part_of (terms_of plan.now) portfolio.now.rows (part_events batch given.now part)) }
    ensures good { IfOk result (λ made. AllByRecursion (λ block. AreSummaries (terms_of plan.now).samples block.summaries) made.blocks) }
{
    let (first, behind) = places_of(given.count(), batch, part);
    part_between(alloc, portfolio, plan, given, first, behind)
}

/// A part with the rows that it adds to the files, and with ready cells where they are to be made ahead.
fn text_part(
    alloc: Global,
    portfolio: &Portfolio,
    samples: u32,
    files: &[OutputFile],
    part: PartBlock,
    ahead: bool,
) -> Result<TextPart, AllocError>
    requires loaded { is_loaded portfolio.now.need 0 table.Occurrence ≡ true }
    requires some { 1 ≤ samples }
    requires few { samples ≤ 1000 }
    requires good { IsGoodPart samples part }
    ensures { IfOk result (λ text. (text.part ≡ part) × AreRowsOf samples portfolio.now.rows part.blocks text.made) }
{
    let made = make_rows(alloc, portfolio, samples, files, part.blocks.as_slice())?;
    let part = ReadyPart::new(alloc, portfolio, samples, part, ahead)?;
    Ok(TextPart { part, made })
}

impl<'a, G: Gate> Work for RoundWork<'a, G> {
    ghost use Rattle.std.specs.Prelude.{length};
    ghost use Rattle.kt_chain.specs.Rounds.{part_count};
    ghost use Rattle.kt_chain.specs.TextFolds.{IsTextPart};

    type Block = TextPart;

    ghost gives = { IsTextPart };

    // Of the events of a part nothing says whether memory is wanting for them.
    ghost lacks = { λ _ _. Unit {0} };

    ghost most = { λ work. part_count work.batch (length work.given) };

    fn work(&self, k: u32) -> Result<TextPart, AllocError> {
        self.gate.pass(k);
        let part = part_of(
            self.alloc,
            self.portfolio,
            self.plan,
            self.given,
            self.batch,
            k,
        )?;
        let samples = self.plan.terms().samples;
        text_part(
            self.alloc,
            self.portfolio,
            samples,
            self.files,
            part,
            self.ahead,
        )
    }
}
