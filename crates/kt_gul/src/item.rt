//! The losses of one item: its deviation, its mean and its samples, before the cut.
//! The rules: docs/CALCULATION.md, "Sampled loss", "Mean and deviation of an item".
ghost use Rattle.std.specs.Prelude.{◌≡◌, ◌+◌, ◌≤◌, ◌^◌, true, length, map, ℕ, IfOk, ◌<◌, ◌++◌};
ghost use Rattle.std.specs.List.{range_with_len};
ghost use Rattle.kt_rec.specs.declared.table.Table.TheVariants as table;
ghost use Rattle.kt_keys.specs.Refusals.{is_loaded};
ghost use Rattle.kt_gul.specs.GroundUp.{item_tiv, loss_by};
ghost use Rattle.kt_damage.specs.DamageMoments.{AreMoments};
ghost use Rattle.kt_damage.specs.Sampled.{CanSample};
ghost use Rattle.kt_damage.specs.Steps.{AreSteps};

use crate::draw::Draw;
use crate::random::{first_place, next_place, random_at};
use crate::struck::StruckItem;
use crate::tables::{GROUPS, loss_at};
use kt_damage::Step;
use kt_rec::Random;
use kt_stream::Bin;
use kt_tables::Portfolio;
use std::alloc::AllocError;

/// The random numbers of a portfolio.
fn numbers_of(portfolio: &Portfolio) -> &[Random]
    requires { is_loaded portfolio.now.need 0 table.Random ≡ true }
    ensures value { result.now ≡ portfolio.now.rows.random }
    ensures some { 1 ≤ length result.now }
{
    portfolio.is_valid();
    portfolio.tables().random.as_slice()
}

/// Appends the losses of a struck item by its insured value and its distribution, in the order of their sidx.
#[inline(never)]
pub(crate) fn item_losses(
    portfolio: &Portfolio,
    draw: Draw,
    tiv: u64,
    bins: &[Bin],
    places: &[u8; GROUPS],
    steps: &[Step],
    struck: &StruckItem,
    losses: Vec<u64>,
) -> Result<Vec<u64>, AllocError>
    requires loaded { is_loaded portfolio.now.need 0 table.Random ≡ true }
    requires samples { draw.samples ≤ 1000 }
    requires value { tiv ≡ item_tiv portfolio.now.rows struck.now.item }
    requires ranges { CanSample (item_tiv portfolio.now.rows struck.now.item) portfolio.now.rows.damage_bin_dict bins.now }
    requires steps { AreSteps portfolio.now.rows.damage_bin_dict bins.now steps.now }
    requires moments { AreMoments bins.now struck.now.moments }
    ensures value { IfOk result (λ longer. longer.items ≡ losses.items ++ map (loss_by portfolio.now.rows draw.event bins.now struck.now.item) (range_with_len 0 (draw.samples + 2))) }
    ensures most { IfOk result (λ _. (place : ℕ) → place < draw.samples + 2 → loss_by portfolio.now.rows draw.event bins.now struck.now.item place ≤ 100200100000000) }
{
    let dictionary = portfolio.damage_bins();
    let numbers = numbers_of(portfolio);
    let mut losses = losses;
    losses.reserve(draw.samples as usize + 2)?;
    losses.push_reserved(struck.moments.loss_deviation(tiv));
    losses.push_reserved(struck.moments.mean_loss(tiv));
    let mut place = first_place(numbers.len() as u64, draw.event, struck.item.group_id);
    for _sample in 0..draw.samples {
        let random = random_at(numbers, place);
        losses.push_reserved(loss_at(tiv, dictionary, bins, places, steps, random));
        place = next_place(numbers.len() as u64, place);
    }
    Ok(losses)
}
