//! The lookups in a portfolio. None takes memory.
//! The rules: docs/TABLES.md, "Tables".
ghost use Rattle.std.specs.Prelude.{◌≡◌, ◌≤◌, ◌<◌, ◌+◌, ◌*◌, ◌^◌, ℕ, nat_eq, true, map, unwrap_or};
ghost use Rattle.std.specs.List.{filter, list_any};
ghost use Rattle.std.specs.HashMap.{get};
ghost use Rattle.std.specs.List.Sorted.{IsPermutation, IsNonDecreasingBy, IsStrictlyIncreasing};
ghost use Rattle.kt_rec.specs.declared.table.Table.TheVariants as table;
ghost use Rattle.kt_keys.specs.Keys.{same_pair};
ghost use Rattle.kt_keys.specs.Refusals.{is_loaded};
ghost use Rattle.kt_checks.specs.TableChecks.{tiv_of};
ghost use Rattle.kt_tables.specs.Kept.{AreSummariesOf, damage_key};
ghost use Rattle.kt_tables.specs.PairLaws.{ArePairsRising};
ghost use Rattle.kt_tables.specs.SetRows.{AreFound};
ghost use Rattle.kt_tables.specs.Lookups.{damages_at, item_pairs, items_with, pair_of, return_periods_of, random_place, random_of, occurrences_of, place_in, has_summary_set, summary_in, exposure_of};

use crate::place::Place;
use crate::portfolio::Portfolio;
use crate::set::SetSummaries;
use crate::summaries::{Summaries, first_summary};
use kt_index::{pair_key, rows_between, rows_near};
use kt_rec::{DamageBin, Item, Occurrence, Perspective, Vulnerability};
use std::collections::HashMap;

/// The place of the random number of an event, a group and a sample, of so many numbers.
fn random_place(numbers: u64, event: u32, group: u32, sidx: u32) -> u64
    requires numbers { 1 ≤ numbers }
    requires short { numbers < 2 ^ 63 }
    requires sample { 1 ≤ sidx }
    ensures value { result ≡ random_place numbers event group sidx }
    ensures within { result < numbers }
{
    let first = (u64::from(event) * 1_543_270_363 + u64::from(group) * 1_943_272_559) % numbers;
    (first + u64::from(sidx) - 1) % numbers
}

/// The value of a key, 0 where it has none.
fn value_at(values: &HashMap<(u32, u32), u64>, key: (u32, u32)) -> u64
    ensures value { result ≡ unwrap_or (get same_pair values.now key) 0 }
{
    values.get(&key).copied().unwrap_or(0)
}

impl Portfolio {
    /// The items by rising id.
    pub fn items(&self) -> &[Item]
        ensures permutation { IsPermutation self.now.rows.items result.now }
        ensures rising { IsStrictlyIncreasing (map (λ row. row.item_id) result.now) }
    {
        match &self.lookups.items.by_id {
            None => &self.tables.items,
            Some(sorted) => sorted,
        }
    }

    /// The items of an areaperil and a vulnerability, in table order; none where no item has both.
    pub fn items_of(&self, areaperil: u32, vulnerability: u32) -> &[Item]
        ensures value { result.now ≡ items_with self.now.rows areaperil vulnerability }
    {
        self.lookups
            .items
            .by_pair
            .of(pair_key(areaperil, vulnerability))
    }

    /// The pairs of areaperil and vulnerability that some item has, each once, by rising areaperil and then vulnerability.
    pub fn pairs(&self) -> &[(u32, u32)]
        ensures value { result.now ≡ item_pairs self.now.rows.items }
        ensures rising { ArePairsRising result.now }
        ensures found { (pair : ℕ × ℕ) → list_any (same_pair pair) result.now ≡ list_any (λ row. same_pair pair (pair_of row)) self.now.rows.items }
    {
        &self.lookups.items.pairs
    }

    /// The rows of the dictionary of damage bins in table order, which is that of their bins.
    pub fn damage_bins(&self) -> &[DamageBin]
        ensures value { result.now ≡ self.now.rows.damage_bin_dict }
    {
        &self.tables.damage_bin_dict
    }

    /// The damage of a vulnerability at an intensity: its rows in table order, none where it has none.
    pub fn damages(&self, vulnerability: u32, intensity: u32) -> &[Vulnerability]
        ensures value { result.now ≡ damages_at self.now.rows vulnerability intensity }
    {
        let mut near = 0;
        self.damages_near(vulnerability, intensity, &mut near)
    }

    /// The damage of a vulnerability at an intensity, as `damages` has it. It is looked for first at a place, which is then that of
    /// its first row: with the place of the last search for the same damage it is found at once.
    pub fn damages_near<'a>(
        &'a self,
        vulnerability: u32,
        intensity: u32,
        near: &mut usize,
    ) -> &'a [Vulnerability]
        ensures value { result.now ≡ damages_at self.now.rows vulnerability intensity }
    {
        let key = pair_key(vulnerability, intensity);
        match &self.lookups.hazard.damages {
            Some(sorted) => rows_near(sorted.as_slice(), key, near),
            None => rows_near(&self.tables.vulnerability, key, near),
        }
    }

    /// The insured value of a coverage in cents, 0 where it is unknown.
    pub fn tiv(&self, coverage: u32) -> u64
        ensures value { result ≡ tiv_of self.now.rows.coverages coverage }
    {
        self.lookups.summaries.tivs.of(0, coverage).unwrap_or(0)
    }

    /// The random number of an event, a group and a sample from 1 on, in parts per million. The table of random numbers
    /// must be loaded.
    pub fn random(&self, event: u32, group: u32, sidx: u32) -> u32
        requires loaded { is_loaded self.now.need 0 table.Random ≡ true }
        requires sample { 1 ≤ sidx }
        ensures value { result ≡ random_of self.now.rows event group sidx }
    {
        let numbers = self.tables.random.as_slice();
        let place = random_place(numbers.len() as u64, event, group, sidx);
        numbers[place as usize].random
    }

    /// The rows of an event in the occurrence table, in table order; none where it has none.
    pub fn occurrences(&self, event: u32) -> &[Occurrence]
        ensures value { result.now ≡ occurrences_of self.now.rows event }
    {
        self.lookups.periods.occurrences.of(u64::from(event))
    }

    /// The number of periods, 0 where the occurrences are not loaded.
    pub fn periods(&self) -> u32
        ensures value { result ≡ self.now.rows.periods }
    {
        self.tables.periods
    }

    /// The return periods in table order.
    pub fn return_periods(&self) -> &[u32]
        ensures value { result.now ≡ return_periods_of self.now.rows }
    {
        &self.lookups.periods.return_periods
    }

    /// What is kept of the summaries of a perspective.
    fn summaries(&self, perspective: Perspective) -> &Summaries
        ensures value { AreSummariesOf perspective self.now.rows self.now.need.rule result.now }
    {
        match perspective {
            Perspective::Gul => &self.lookups.summaries.of_items,
            Perspective::Il => &self.lookups.summaries.of_outputs,
            Perspective::Ri => &self.lookups.summaries.of_outputs,
        }
    }

    /// Whether a perspective has a summary set.
    pub fn has_set(&self, perspective: Perspective, set: u32) -> bool
        ensures value { result ≡ has_summary_set perspective self.now.rows set }
    {
        self.summaries(perspective).sets.contains(&set)
    }

    /// The summary of an item, or of an output, in a set; `None` where it has none.
    pub fn summary_of(&self, perspective: Perspective, set: u32, id: u32) -> Option<u32>
        ensures value { result ≡ summary_in perspective self.now.rows set id }
    {
        self.is_valid();
        let summaries = self.summaries(perspective);
        first_summary(summaries.by_id.of(pair_key(set, id)))
    }

    /// The summaries of items, or of outputs, in a set.
    pub fn set_summaries(&self, perspective: Perspective, set: u32) -> SetSummaries<'_>
        ensures value { AreFound (summary_in perspective self.now.rows set) result }
    {
        self.is_valid();
        let by_id = self.summaries(perspective).by_id.as_slice();
        SetSummaries {
            rows: rows_between(by_id, pair_key(set, 0), pair_key(set, u32::MAX)),
            set,
        }
    }

    /// The exposure of a summary of a set in cents: the insured values of the distinct coverages of all items, or outputs,
    /// that are added to it; 0 where there is no such summary.
    pub fn exposure(&self, perspective: Perspective, set: u32, summary: u32) -> u64
        ensures value { result ≡ exposure_of perspective self.now.rows self.now.need.rule set summary }
    {
        value_at(&self.summaries(perspective).exposures, (set, summary))
    }

    /// Where the records of an event stand in the footprint file; `None` where the index has no such event.
    pub fn place_of(&self, event: u32) -> Option<Place>
        ensures value { result ≡ place_in self.now.rows event }
    {
        self.lookups.hazard.places.get(&event).copied()
    }
}
