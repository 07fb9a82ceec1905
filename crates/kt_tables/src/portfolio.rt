//! A valid portfolio: tables that no check refuses.
//! The rules: docs/CHECKS.md.
ghost use Rattle.std.specs.Prelude.{◌≡◌, ◌⊎◌, None, IfOk, IfErr};
ghost use Rattle.kt_rec.specs.Ranges.{AreInRange};
ghost use Rattle.kt_rec.specs.Rows.{rows_of};
ghost use Rattle.kt_checks.specs.Checks.{first_refusal, samples_refusal, answer_of};
ghost use Rattle.kt_checks.specs.KeptChecks.{FitsSamples};
ghost use Rattle.kt_checks.specs.SummaryChecks.{CountsSummaries};
ghost use Rattle.kt_tables.specs.Kept.{AreLookups};
ghost use Rattle.kt_tables.specs.Portfolio.{HasOnlyNeeded, HasPeriods, IsPortfolio};
ghost use Rattle.kt_tables.specs.Lookups.{event_ids};

use crate::lookups::Lookups;
use kt_checks::{CheckStop, Need, SummaryCounts, first_check, samples_check, summary_counts};
use kt_rec::Tables;
use std::alloc::Global;
use std::marker::Model;

/// The tables of a run, in the ranges of their fields, that no check refuses, with what their lookups need. Contracts see
/// the rows of the tables, and what they are needed for.
#[derive(Drop)]
pub struct Portfolio {
    pub(crate) tables: Tables,
    pub(crate) need: Need,
    pub(crate) counts: SummaryCounts,
    pub(crate) lookups: Lookups,
}

impl Model for Portfolio {
    ghost use Rattle.kt_rec.specs.Rows.{rows_of};
    ghost use Rattle.kt_tables.specs.Portfolio.{PortfolioRows};

    ghost Value = { PortfolioRows };

    ghost view = { λ p. record { rows = rows_of p.tables; need = p.need } };

    ghost use Rattle.kt_tables.specs.Kept.{IsKept};

    ghost invariant = { IsKept };
}

/// What is kept beside tables that no check refuses.
fn kept(alloc: Global, tables: &Tables, need: &Need) -> Result<(SummaryCounts, Lookups), CheckStop>
    requires ranges { AreInRange (rows_of tables.now) }
    requires needed { HasOnlyNeeded (rows_of tables.now) need.now }
    requires periods { HasPeriods (rows_of tables.now) need.now }
    ensures valid { IfOk result (λ _. IsPortfolio (record { rows = rows_of tables.now; need = need.now })) }
    ensures counts { IfOk result (λ kept. CountsSummaries (rows_of tables.now) kept.0) }
    ensures lookups { IfOk result (λ kept. AreLookups (rows_of tables.now) need.now.rule kept.1) }

    // The first refusal, or want of memory.
    ensures refused { IfErr result (λ stop. (Err stop ≡ answer_of (first_refusal (rows_of tables.now) need.now)) ⊎ (stop ≡ CheckStop.OutOfMemory)) }
{
    first_check(alloc, tables, need)?;
    let counts = summary_counts(alloc, tables)?;
    let lookups = Lookups::new(alloc, tables, need.rule)?;
    Ok((counts, lookups))
}

impl Portfolio {
    /// Makes the checks of the tables, and keeps them where none refuses. `CheckStop::Check` is the first refusal: by the
    /// check's number, then by the table, then by the row; the other error is want of memory. The checks 18 and 19 are made
    /// where `need.samples` is above 0, else they are left to `samples_fit`.
    pub fn new(alloc: Global, tables: Tables, need: Need) -> Result<Portfolio, CheckStop>
        requires ranges { AreInRange (rows_of tables) }
        requires needed { HasOnlyNeeded (rows_of tables) need }
        requires periods { HasPeriods (rows_of tables) need }
        ensures ok { IfOk result (λ portfolio. portfolio ≡ record { rows = rows_of tables; need = need }) }
        ensures valid { IfOk result (λ _. first_refusal (rows_of tables) need ≡ None) }

        // The first refusal, or want of memory.
        ensures refused { IfErr result (λ stop. (Err stop ≡ answer_of (first_refusal (rows_of tables) need)) ⊎ (stop ≡ CheckStop.OutOfMemory)) }
    {
        let (counts, lookups) = kept(alloc, &tables, &need)?;
        Ok(Portfolio {
            tables,
            need,
            counts,
            lookups,
        })
    }

    /// The rows of the tables.
    pub fn tables(&self) -> &Tables
        ensures value { rows_of result.now ≡ self.now.rows }
    {
        &self.tables
    }

    /// What the tables are needed for.
    pub fn need(&self) -> Need
        ensures value { result ≡ self.now.need }
    {
        self.need
    }

    /// The events in table order.
    pub fn events(&self) -> &[u32]
        ensures value { result.now ≡ event_ids self.now.rows }
    {
        &self.lookups.hazard.event_ids
    }

    /// Makes the checks 18 and 19 for a number of samples. Takes no memory. An error is the first of the two that
    /// refuses the tables.
    pub fn samples_fit(&self, samples: u32) -> Result<(), CheckStop>
        ensures exact { result ≡ answer_of (samples_refusal self.now.rows self.now.need samples) }
        ensures fits { IfOk result (λ _. FitsSamples self.now.rows self.now.need samples) }
    {
        self.is_valid();
        samples_check(&self.tables, &self.need, &self.counts, samples)
    }
}
