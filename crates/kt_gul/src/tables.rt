//! The steps of the distributions of an event, and the loss of a sample by them.
//! The rule: docs/CALCULATION.md, "Sampled loss".
ghost use Rattle.std.specs.Prelude.{◌≡◌, ◌+◌, ◌-◌, ◌*◌, ◌<◌, ◌≤◌, length, take, drop, All, IfOk, OnOk};
ghost use Rattle.kt_rec.specs.Ranges.{IsDamageBin};
ghost use Rattle.kt_stream.specs.Bins.{IsCdf};
ghost use Rattle.kt_damage.specs.SampledLoss.{sampled_loss};
ghost use Rattle.kt_damage.specs.Sampled.{CanSample};
ghost use Rattle.kt_damage.specs.Steps.{AreSteps};
ghost use Rattle.kt_gul.specs.StepTables.{AreTables};

use crate::held::HeldCdf;
use kt_damage::{Step, bin_step, damage_before, end_before, end_step, sampled_loss};
use kt_rec::DamageBin;
use kt_stream::Bin;
use std::alloc::{AllocError, Global};

/// How many groups the random numbers are in: 8,192 parts per million each.
pub(crate) const GROUPS: usize = 128;

/// The group of a random number in parts per million is this many bits to the left.
const GROUP_BITS: u32 = 13;

/// The steps of a distribution, among those of all distributions of an event.
#[derive(Drop)]
pub struct StepTable {
    /// For each group the step from which on to look for its numbers. No contract speaks of it: what is found is tested.
    pub(crate) places: [u8; GROUPS],
    /// The place of the first step.
    pub(crate) start: usize,
    /// The place behind the last.
    pub(crate) end: usize,
}

/// The steps of the distributions of an event.
#[derive(Drop)]
pub struct StepTables {
    /// Where those of each distribution stand, in the order of the distributions.
    pub(crate) tables: Vec<StepTable>,
    /// All steps, by rising numbers in each distribution.
    pub(crate) steps: Vec<Step>,
}

/// Where to look for the numbers of each group: from the last step that begins in an earlier one.
fn places_of(steps: &[Step]) -> [u8; GROUPS] {
    let mut places = [0; GROUPS];
    for (place, step) in steps.iter().enumerate() {
        let group = (step.first >> GROUP_BITS) as usize + 1;
        if group < GROUPS {
            places[group] = place.min(255) as u8;
        }
    }
    let mut last = 0;
    for group in 0..GROUPS {
        last = places[group].max(last);
        places[group] = last;
    }
    places
}

/// Appends the step of the bin at a place.
fn push_step(
    dictionary: &[DamageBin],
    bins: &[Bin],
    place: usize,
    steps: &mut Vec<Step>,
) -> Result<(), AllocError>
    requires ranges { CanSample 0 dictionary.now bins.now }
    requires within { place < length bins.now }
    requires steps { AreSteps dictionary.now bins.now steps.old.items }
    ensures steps { OnOk result (AreSteps dictionary.now bins.now steps.new.items) }
{
    if let Some(step) = bin_step(
        &dictionary[place],
        end_before(bins, place),
        bins[place].prob_to,
    ) {
        steps.push(step)?;
    }
    Ok(())
}

/// Appends the step behind all bins.
fn push_end(dictionary: &[DamageBin], bins: &[Bin], steps: &mut Vec<Step>) -> Result<(), AllocError>
    requires ranges { CanSample 0 dictionary.now bins.now }
    requires steps { AreSteps dictionary.now bins.now steps.old.items }
    ensures steps { OnOk result (AreSteps dictionary.now bins.now steps.new.items) }
{
    let high = damage_before(dictionary, bins.len());
    steps.push(end_step(end_before(bins, bins.len()), high))?;
    Ok(())
}

/// The steps of a distribution, in a list whose memory is used again. An error is want of memory.
fn steps_of(
    dictionary: &[DamageBin],
    bins: &[Bin],
    list: Vec<Step>,
) -> Result<Vec<Step>, AllocError>
    requires { CanSample 0 dictionary.now bins.now }
    ensures steps { IfOk result (λ steps. AreSteps dictionary.now bins.now steps.items) }
{
    let mut steps = list;
    steps.clear();
    for place in 0..bins.len() {
        push_step(dictionary, bins, place, &mut steps)?;
    }
    push_end(dictionary, bins, &mut steps)?;
    Ok(steps)
}

/// As many steps as distributions have at the most: one for each bin, and one behind them.
fn most_steps(cdfs: &[HeldCdf<'_>]) -> usize {
    let mut most = cdfs.len();
    for cdf in cdfs {
        most = most.saturating_add(cdf.bins().len());
    }
    most
}

/// Appends the steps of the distribution at a place, and where they stand. The list is one whose memory is used again.
fn push_table(
    dictionary: &[DamageBin],
    cdfs: &[HeldCdf<'_>],
    place: usize,
    own: Vec<Step>,
    all: &mut StepTables,
) -> Result<Vec<Step>, AllocError>
    requires ends { All IsDamageBin dictionary.now }
    requires cdfs { All (IsCdf (length dictionary.now)) cdfs.now }
    requires within { place < length cdfs.now }
    requires tables { AreTables dictionary.now cdfs.now place all.old.tables.items all.old.steps.items }
    ensures tables { OnOk result (AreTables dictionary.now cdfs.now (place + 1) all.new.tables.items all.new.steps.items) }
{
    let own = steps_of(dictionary, cdfs[place].bins(), own)?;
    let start = all.steps.len();
    all.steps.extend_from_slice(&own)?;
    all.tables.push(StepTable {
        places: places_of(&own),
        start,
        end: all.steps.len(),
    })?;
    Ok(own)
}

/// The steps of distributions, in their order. An error is want of memory.
pub(crate) fn tables_of(
    alloc: Global,
    dictionary: &[DamageBin],
    cdfs: &[HeldCdf<'_>],
) -> Result<StepTables, AllocError>
    requires ends { All IsDamageBin dictionary.now }
    requires cdfs { All (IsCdf (length dictionary.now)) cdfs.now }
    ensures value { IfOk result (λ all. AreTables dictionary.now cdfs.now (length cdfs.now) all.tables.items all.steps.items) }
{
    let mut all = StepTables {
        tables: Vec::with_capacity(alloc, cdfs.len())?,
        steps: Vec::with_capacity(alloc, most_steps(cdfs))?,
    };
    let mut own = Vec::new(alloc);
    for place in 0..cdfs.len() {
        own = push_table(dictionary, cdfs, place, own, &mut all)?;
    }
    Ok(all)
}

/// The steps from a place up to but not including another.
#[inline]
pub(crate) fn steps_between(steps: &[Step], start: usize, end: usize) -> &[Step]
    requires order { start ≤ end }
    requires within { end ≤ length steps.now }
    ensures value { result.now ≡ take (end - start) (drop start steps.now) }
{
    &steps[start..end]
}

/// The loss of an insured value by a distribution and its steps, at a random number in parts per million.
#[inline]
pub(crate) fn loss_at(
    tiv: u64,
    dictionary: &[DamageBin],
    bins: &[Bin],
    places: &[u8; GROUPS],
    steps: &[Step],
    random: u32,
) -> u64
    requires ranges { CanSample tiv dictionary.now bins.now }
    requires steps { AreSteps dictionary.now bins.now steps.now }
    ensures value { result ≡ sampled_loss tiv dictionary.now bins.now (random * 1000000) }
{
    let mut place = usize::from(places[(random >> GROUP_BITS) as usize % GROUPS]);
    while place < steps.len() {
        let step = steps[place];
        let over = random.wrapping_sub(step.first);
        if over <= step.span {
            return step.loss(tiv, over);
        }
        place += 1;
    }
    sampled_loss(tiv, dictionary, bins, random)
}
