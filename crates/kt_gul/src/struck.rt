//! The items that an event strikes, with what their losses stand on.
//! The rules: docs/CALCULATION.md, "Sampled loss", "Coverage cut".
ghost use Rattle.std.specs.Prelude.{◌≡◌, true, length, map, IfOk, OnOk, ◌++◌};
ghost use Rattle.kt_rec.specs.declared.table.Table.TheVariants as table;
ghost use Rattle.kt_keys.specs.Refusals.{is_loaded};
ghost use Rattle.kt_gul.specs.StruckItems.{AreCdfs, AreStruck, id_of};
ghost use Rattle.std.specs.List.Sorted.{IsNonDecreasingBy};

use crate::held::HeldCdf;
use kt_damage::{DamageMoments, damage_moments};
use kt_index::{Keyed, pair_key};
use kt_rec::Item;
use kt_tables::Portfolio;
use std::alloc::{AllocError, Global};

/// An item that an event strikes. They stand by coverage, and then by id.
#[derive(Clone, Copy, Drop)]
pub struct StruckItem {
    /// The item.
    pub(crate) item: Item,
    /// The place of its distribution among those of the event.
    pub(crate) cdf: usize,
    /// The moments of its damage.
    pub(crate) moments: DamageMoments,
}

impl StruckItem {
    /// The item's id.
    fn id(&self) -> u32
        ensures value { result ≡ id_of self.now }
    {
        self.item.item_id
    }
}

impl Keyed for StruckItem {
    ghost use Rattle.kt_gul.specs.StruckItems.{struck_key};

    ghost key_of = { struck_key };

    fn key(&self) -> u64 {
        pair_key(self.item.coverage_id, self.item.item_id)
    }
}

/// Appends the items of a distribution.
fn push_items(
    items: &[Item],
    cdf: usize,
    moments: DamageMoments,
    struck: &mut Vec<StruckItem>,
) -> Result<(), AllocError>
    ensures ok { OnOk result (struck.new.items ≡ struck.old.items ++ map (λ item. record { item = item; cdf = cdf; moments = moments }) items.now) }
{
    for item in items {
        struck.push(StruckItem {
            item: *item,
            cdf,
            moments,
        })?;
    }
    Ok(())
}

/// The items for which an event has a distribution, distribution by distribution.
pub(crate) fn struck_items(
    alloc: Global,
    portfolio: &Portfolio,
    cdfs: &[HeldCdf<'_>],
) -> Result<Vec<StruckItem>, AllocError>
    requires { AreCdfs (length portfolio.now.rows.damage_bin_dict) cdfs.now }
    ensures value { IfOk result (λ struck. AreStruck portfolio.now.rows cdfs.now (length cdfs.now) struck.items) }
{
    portfolio.is_valid();
    let mut struck = Vec::with_capacity(alloc, cdfs.len())?;
    for (place, cdf) in cdfs.iter().enumerate() {
        let moments = damage_moments(cdf.bins());
        let items = portfolio.items_of(cdf.areaperil(), cdf.vulnerability());
        push_items(items, place, moments, &mut struck)?;
    }
    Ok(struck)
}

/// Whether struck items stand by rising id.
pub(crate) fn is_by_id(struck: &[StruckItem]) -> bool
    ensures rising { result ≡ true → IsNonDecreasingBy id_of struck.now }
{
    let mut last = 0;
    for one in struck {
        let id = one.id();
        if id < last {
            return false;
        }
        last = id;
    }
    true
}
