//! Lanes side by side: what each unit has sidx by sidx, one unit behind the other.
//! The rules: docs/FINANCIAL_MODULE.md, "Levels".
ghost use Rattle.std.specs.Prelude.{◌≡◌, ℕ, ◌+◌, ◌-◌, ◌*◌, ◌<◌, ◌≤◌, ◌^◌, [], ◌∷◌, ◌++◌, drop, length, replicate, slice_index, slice_index_or, slice_set, take, IfOk, OnErr, OnOk};
ghost use Rattle.kt_lanes.specs.Lanes.{AreLanes, AreWide, IsLane};
ghost use Rattle.kt_lanes.specs.SideBySide.{HasMore, IsAdded, IsLessened};

use crate::amounts::{Amounts, OneLane};
use crate::lane::no_amounts;
use std::alloc::{AllocError, Global};
use std::marker::Model;

mod places;

/// The amounts of units in cents, a lane each: what a unit has sidx by sidx. All lanes are as wide. Contracts see the list of the
/// lanes; kept are the amounts of all, one lane behind the other.
#[derive(Drop)]
pub struct Lanes {
    width: usize,
    count: usize,
    amounts: Vec<u64>,
}

impl Model for Lanes {
    ghost use Rattle.std.specs.Prelude.{◌≡◌, ◌*◌, ℕ, List, length};
    ghost use Rattle.kt_lanes.specs.SideBySide.{cut};

    ghost Value = { List (List ℕ) };

    ghost view = { λ kept. cut kept.width kept.count kept.amounts.items };

    ghost invariant = { λ kept. length kept.amounts.items ≡ kept.width * kept.count };
}

/// How many amounts so many lanes have, or want of memory.
fn size_of(count: usize, width: usize) -> Result<usize, AllocError>
    ensures value { IfOk result (λ size. size ≡ width * count) }
{
    match width.checked_mul(count) {
        Some(size) => Ok(size),
        None => Err(AllocError),
    }
}

/// Takes the amounts of a lane in cents from those of another, sidx by sidx: one of which more is taken becomes 0.
fn take_from(lane: &mut [u64], less: &[u64])
    requires same { length less.now ≡ length lane.old }
    ensures value { IsLane (length lane.old) (λ k. slice_index lane.old k - slice_index less.now k) lane.new }
{
    for k in 0..lane.len() {
        lane[k] = lane[k].saturating_sub(less[k]);
    }
}

/// Exchanges so many amounts that stand behind a place of one list with those that stand first in another.
fn exchange(front: &mut [u64], start: usize, back: &mut [u64], width: usize)
    requires front { start + width ≤ length front.old }
    requires back { width ≤ length back.old }
    ensures front { front.new ≡ take start front.old ++ (take width back.old ++ drop width (drop start front.old)) }
    ensures back { back.new ≡ take width (drop start front.old) ++ drop width back.old }
{
    front[start..start + width].swap_with_slice(&mut back[..width]);
}

impl Lanes {
    /// No lanes.
    pub fn new(alloc: Global) -> Lanes
        ensures value { result ≡ [] }
    {
        Lanes {
            width: 0,
            count: 0,
            amounts: Vec::new(alloc),
        }
    }

    /// No lanes, with room for so many of a width. An error is want of memory.
    pub fn with_room(alloc: Global, count: usize, width: usize) -> Result<Lanes, AllocError>
        ensures value { IfOk result (λ lanes. lanes ≡ []) }
    {
        let size = size_of(count, width)?;
        let amounts = Vec::with_capacity(alloc, size)?;
        Ok(Lanes {
            width,
            count: 0,
            amounts,
        })
    }

    /// So many lanes of a width without an amount. An error is want of memory.
    pub fn zeros(alloc: Global, count: usize, width: usize) -> Result<Lanes, AllocError>
        ensures value { IfOk result (λ lanes. AreLanes width count (λ k. replicate count 0) lanes) }
    {
        let size = size_of(count, width)?;
        let amounts = no_amounts(alloc, size)?;
        Ok(Lanes {
            width,
            count,
            amounts,
        })
    }

    /// Takes all lanes out. The room that they had stays.
    pub fn clear(&mut self)
        ensures value { self.new ≡ [] }
    {
        self.amounts.clear();
        self.count = 0;
    }

    /// How many lanes there are.
    pub fn len(&self) -> usize
        ensures value { result ≡ length self.now }
    {
        self.count
    }

    /// The lane in a place.
    pub fn lane(&self, place: usize) -> &[u64]
        requires place { place < length self.now }
        ensures value { result.now ≡ slice_index_or self.now place result.now }
    {
        let start = self.width * place;
        &self.amounts[start..start + self.width]
    }

    /// Puts a lane behind the others. An error is want of memory, and nothing changes then.
    pub fn push(&mut self, lane: &[u64]) -> Result<(), AllocError>
        requires wide { AreWide (length lane.now) self.old }
        ensures ok { OnOk result (self.new ≡ self.old ++ lane.now ∷ []) }
        ensures unchanged { OnErr result (self.new ≡ self.old) }
    {
        let count = more_of(self.count, 1)?;
        self.amounts.extend_from_slice(lane)?;
        self.width = lane.len();
        self.count = count;
        Ok(())
    }

    /// Puts lanes of the same width behind the others. An error is want of memory, and nothing changes then.
    pub fn append(&mut self, width: usize, more: &Lanes) -> Result<(), AllocError>
        requires wide { AreWide width self.old }
        requires more { AreWide width more.now }
        ensures ok { OnOk result (self.new ≡ self.old ++ more.now) }
        ensures unchanged { OnErr result (self.new ≡ self.old) }
    {
        let count = more_of(self.count, more.count)?;
        self.amounts.extend_from_slice(&more.amounts)?;
        self.width = width;
        self.count = count;
        Ok(())
    }

    /// Keeps the first so many lanes.
    fn truncate(&mut self, count: usize)
        requires within { count ≤ length self.old }
        ensures value { self.new ≡ take count self.old }
    {
        self.amounts.truncate(self.width * count);
        self.count = count;
    }

    /// Puts two lanes in the places of one another.
    fn swap(&mut self, first: usize, second: usize)
        requires order { first < second }
        requires place { second < length self.old }
        ensures value { self.new ≡ slice_set (slice_set self.old first (slice_index_or self.old second [])) second (slice_index_or self.old first []) }
    {
        let width = self.width;
        let (front, back) = self.amounts.split_at_mut(width * second);
        exchange(front, width * first, back, width);
    }

    /// Adds the amounts of a lane in cents to those of the lane in a place.
    pub fn add(&mut self, place: usize, more: &[u64])
        requires place { place < length self.old }
        requires wide { AreWide (length more.now) self.old }
        requires few { (k : ℕ) → k < length more.now → slice_index (slice_index_or self.old place []) k + slice_index more.now k < 2 ^ 64 }
        ensures value { IsAdded place more.now self.old self.new }
    {
        self.add_amounts(place, &OneLane { lane: more });
    }

    /// Adds amounts in cents to those of the lane in a place, where they stand.
    pub fn add_amounts<A: Amounts>(&mut self, place: usize, more: &A)
        requires place { place < length self.old }
        requires good { A.IsGood more.now }
        requires wide { AreWide (A.width more.now) self.old }
        requires few { (k : ℕ) → k < A.width more.now → slice_index (slice_index_or self.old place []) k + A.amount more.now k < 2 ^ 64 }
        ensures value { HasMore place (A.width more.now) (A.amount more.now) self.old self.new }
    {
        let start = self.width * place;
        let end = start + self.width;
        more.add_to(&mut self.amounts[start..end]);
    }

    /// Takes the amounts of a lane in cents from those of the lane in a place, where they stand: one of which more is taken becomes 0.
    pub fn lessen(&mut self, place: usize, less: &[u64])
        requires place { place < length self.old }
        requires wide { AreWide (length less.now) self.old }
        ensures value { IsLessened place less.now self.old self.new }
    {
        let start = self.width * place;
        let end = start + self.width;
        take_from(&mut self.amounts[start..end], less);
    }
}

/// The sum of two numbers of lanes, or want of memory.
pub fn more_of(count: usize, more: usize) -> Result<usize, AllocError>
    ensures value { IfOk result (λ all. all ≡ count + more) }
{
    match count.checked_add(more) {
        Some(all) => Ok(all),
        None => Err(AllocError),
    }
}
