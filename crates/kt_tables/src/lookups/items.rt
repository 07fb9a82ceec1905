//! The lookups of items.
//! The rule: docs/TABLES.md, "Lookups".
ghost use Rattle.std.specs.Prelude.{◌≡◌, ◌<◌, ◌^◌, true, false, IfOk, OnOk};
ghost use Rattle.std.specs.BTreeSet.{insert_key};
ghost use Rattle.std.specs.List.Sorted.{IsPermutation, IsNonDecreasingBy};
ghost use Rattle.kt_rec.specs.Rows.{rows_of};
ghost use Rattle.kt_tables.specs.Lookups.{item_pairs, pair_order};
ghost use Rattle.kt_tables.specs.Kept.{AreById, AreItemLookups, item_key};
ghost use Rattle.kt_tables.specs.PairLaws.{ArePairsRising};
ghost use Rattle.kt_tables.specs.PairsMade.{ArePairsUpto, IsLastPair, IsNotLastPair};

use kt_index::ByKey;
use kt_rec::{Item, Tables};
use std::alloc::{AllocError, Global};

/// The lookups of items.
#[derive(Drop)]
pub(crate) struct ItemLookups {
    /// The items by rising id, where the table is in another order.
    pub(crate) by_id: Option<Vec<Item>>,
    /// The items by areaperil and vulnerability.
    pub(crate) by_pair: ByKey<Item>,
    /// The pairs of areaperil and vulnerability that some item has, each once, rising.
    pub(crate) pairs: Vec<(u32, u32)>,
}

/// The id of an item.
fn id_of(row: &Item) -> u32
    ensures value { result ≡ row.now.item_id }
{
    row.item_id
}

/// Whether items stand by rising id.
fn is_by_id(items: &[Item]) -> bool
    ensures rising { result ≡ true → IsNonDecreasingBy (λ row. row.item_id) items.now }
{
    let mut last = 0;
    for row in items {
        let id = id_of(row);
        if id < last {
            return false;
        }
        last = id;
    }
    true
}

/// The items by rising id.
fn sorted_by_id(alloc: Global, items: &[Item]) -> Result<Vec<Item>, AllocError>
    ensures permutation { IfOk result (λ sorted. IsPermutation items.now sorted.items) }
    ensures rising { IfOk result (λ sorted. IsNonDecreasingBy (λ row. row.item_id) sorted.items) }
{
    let mut sorted = items.to_vec(alloc)?;
    sorted.sort_by_key(|row| row.item_id)?;
    Ok(sorted)
}

/// The items by rising id; nothing where the table is in that order.
fn by_id(alloc: Global, items: &[Item]) -> Result<Option<Vec<Item>>, AllocError>
    ensures value { IfOk result (AreById items.now) }
{
    if is_by_id(items) {
        return Ok(None);
    }
    let sorted = sorted_by_id(alloc, items)?;
    Ok(Some(sorted))
}

/// Whether the last of pairs is this one.
fn is_last(pairs: &[(u32, u32)], pair: (u32, u32)) -> bool
    ensures same { result ≡ true → IsLastPair pairs.now pair }
    ensures other { result ≡ false → IsNotLastPair pairs.now pair }
{
    match pairs.last() {
        Some(last) => last.0 == pair.0 && last.1 == pair.1,
        None => false,
    }
}

/// Puts the pair of an areaperil and a vulnerability behind rising ones, of which none is above it, unless it is the last of them.
fn push_pair(
    pairs: &mut Vec<(u32, u32)>,
    areaperil: u32,
    vulnerability: u32,
) -> Result<(), AllocError>
    requires rising { ArePairsRising pairs.old.items }
    requires upto { ArePairsUpto (areaperil, vulnerability) pairs.old.items }
    ensures value { OnOk result (pairs.new.items ≡ insert_key pair_order pairs.old.items (areaperil, vulnerability)) }
    ensures short { vulnerability < 2 ^ 32 }
{
    let pair = (areaperil, vulnerability);
    if is_last(pairs, pair) {
        return Ok(());
    }
    pairs.push(pair)?;
    Ok(())
}

/// The pairs of areaperil and vulnerability of items that stand in the order of these, each once, rising.
fn pairs(alloc: Global, items: &[Item]) -> Result<Vec<(u32, u32)>, AllocError>
    requires rising { IsNonDecreasingBy item_key items.now }
    ensures value { IfOk result (λ pairs. pairs.items ≡ item_pairs items.now) }
{
    let mut pairs: Vec<(u32, u32)> = Vec::new(alloc);
    for row in items {
        push_pair(&mut pairs, row.areaperil_id, row.vulnerability_id)?;
    }
    Ok(pairs)
}

impl ItemLookups {
    /// What is kept of items. An error is want of memory.
    pub(crate) fn new(alloc: Global, tables: &Tables) -> Result<ItemLookups, AllocError>
        ensures value { IfOk result (AreItemLookups (rows_of tables.now)) }
    {
        let by_pair = ByKey::new(alloc, &tables.items)?;
        Ok(ItemLookups {
            by_id: by_id(alloc, &tables.items)?,
            pairs: pairs(alloc, by_pair.as_slice())?,
            by_pair,
        })
    }
}
