//! The footprint rows of the events of a round.
//! The rules: docs/TABLES.md, "Footprint rows of a round".
ghost use Rattle.std.specs.Prelude.{◌≡◌, ◌<◌, ◌≤◌, true, [], length, map, slice_index_or, IfSome, MatchResult, OnErr, OnOk};
ghost use Rattle.kt_keys.specs.Refusals.{is_loaded};
ghost use Rattle.kt_load.specs.Ends.{IsReadStop};
ghost use Rattle.kt_load.specs.EventRows.{EventRows, HasFootprint, event_with_rows, footprint_name, ids_of};
ghost use Rattle.kt_load.specs.Spans.{count_at, held_from};
ghost use Rattle.kt_rec.specs.declared.table.Table.TheVariants as table;
ghost use Rattle.kt_tables.specs.Lookups.{place_in};

use crate::held_rows::HeldRows;
use crate::spans::{place_in_file, read_rows};
use crate::stop::LoadStop;
use arrayvec::ArrayVec;
use kt_out::Inputs;
use kt_rec::FootRow;
use kt_tables::Portfolio;
use std::alloc::Global;
use std::marker::Model;

/// The events of a round, at most 64, with their footprint rows. Contracts see the list of events with their rows. The memory for the
/// rows is kept from one round to the next.
#[derive(Drop)]
pub struct RoundRows {
    alloc: Global,
    rows: Vec<FootRow>,
    held: ArrayVec<HeldRows, 64>,
}

impl Model for RoundRows {
    ghost use Rattle.std.specs.Prelude.{List, All, length, map};
    ghost use Rattle.kt_load.specs.EventRows.{EventRows};
    ghost use Rattle.kt_load.specs.Spans.{LiesAmong, rows_held};

    ghost Value = { List EventRows };

    ghost view = { λ r. map (rows_held r.rows.items) r.held.items };

    ghost invariant = { λ r. All (LiesAmong (length r.rows.items)) r.held.items };
}

/// How many rows an event has in the footprint's file, at most 100,000.
fn count_of(portfolio: &Portfolio, event: u32) -> usize
    requires footprint { is_loaded portfolio.now.need 0 table.Footprint ≡ true }
    ensures value { result ≡ count_at (place_in portfolio.now.rows event) }
    ensures few { result ≤ 100000 }
{
    match place_in_file(portfolio, event) {
        Some(place) => (place.size / 12) as usize,
        None => 0,
    }
}

/// Holds where the rows of events stand in the rows of all, one event after the other, in a list that has none.
fn hold(held: &mut ArrayVec<HeldRows, 64>, portfolio: &Portfolio, events: &[u32])
    requires footprint { is_loaded portfolio.now.need 0 table.Footprint ≡ true }
    requires few { length events.now ≤ 64 }
    requires none { held.old.items ≡ [] }
    ensures value { held.new.items ≡ held_from 0 portfolio.now.rows events.now }
{
    let mut at = 0;
    for event in events {
        let event = *event;
        let count = count_of(portfolio, event);
        held.push(HeldRows { event, at, count });
        at += count;
    }
}

impl RoundRows {
    /// No event. Takes no memory.
    pub fn new(alloc: Global) -> Self
        ensures value { result ≡ [] }
    {
        RoundRows {
            alloc,
            rows: Vec::new(alloc),
            held: ArrayVec::new(),
        }
    }

    /// Holds at most 64 events, each with its footprint rows as they stand in the footprint's file; no row where the index has no such
    /// event. What it held before is let go. Rows that follow one another in the file in the order of the events are asked for
    /// together. The footprint and its index must be loaded, and the file be as long as it was then. Refused only for a fault that
    /// the inputs counted, and for want of memory; then no event is held. Rows are not judged here.
    pub fn fill<I: Inputs>(
        &mut self,
        inputs: &mut I,
        portfolio: &Portfolio,
        events: &[u32],
    ) -> Result<(), LoadStop>
        requires few { length events.now ≤ 64 }
        requires footprint { is_loaded portfolio.now.need 0 table.Footprint ≡ true }
        requires index { is_loaded portfolio.now.need 0 table.FootprintIdx ≡ true }
        requires file { HasFootprint (I.state inputs.old).held portfolio.now.rows.footprint_size }
        ensures events { OnOk result (ids_of self.new ≡ events.now) }
        ensures value { OnOk result (IfSome (I.state inputs.old).held (λ files. IfSome (files footprint_name) (λ bytes. self.new ≡ map (event_with_rows portfolio.now.rows bytes) events.now))) }

        ensures refused { OnErr result (self.new ≡ []) }
        ensures inputs { MatchResult result (λ _. I.state inputs.new ≡ I.state inputs.old) (IsReadStop (I.state inputs.old) (I.state inputs.new)) }
    {
        self.held.clear();
        self.rows.clear();
        read_rows(self.alloc, inputs, portfolio, events, &mut self.rows)?;
        hold(&mut self.held, portfolio, events);
        Ok(())
    }

    /// How many events are held, at most 64.
    pub fn count(&self) -> u32
        ensures value { result ≡ length self.now }
        ensures few { result ≤ 64 }
    {
        self.held.len() as u32
    }

    /// The id of the n-th event that is held, counted from 0.
    pub fn event(&self, n: u32) -> u32
        requires held { n < length self.now }
        ensures value { (one : EventRows) → result ≡ (slice_index_or self.now n one).event }
    {
        self.held.as_slice()[n as usize].event
    }

    /// The footprint rows of the n-th event that is held, counted from 0.
    pub fn rows(&self, n: u32) -> &[FootRow]
        requires held { n < length self.now }
        ensures value { (one : EventRows) → result.now ≡ (slice_index_or self.now n one).rows }
    {
        let one = self.held.as_slice()[n as usize];
        &self.rows[one.at..one.at + one.count]
    }
}
