//! The ids that a record of losses may have.
//! The rules: docs/STREAMS.md, "Tools over losses".
ghost use Rattle.std.specs.Prelude.{◌≡◌, ℕ, nat_eq, map, IfOk};
ghost use Rattle.kt_losses.specs.Judged.{is_known};
ghost use Rattle.kt_losses.specs.Known.{has_id, known_rows};
ghost use Rattle.kt_rec.specs.Rows.{rows_of};

use kt_index::{ByKey, Keyed};
use kt_rec::{FmXref, Item, Tables};
use std::alloc::{AllocError, Global};

/// An id that a record may have: of an item, or of an output.
#[derive(Clone, Copy, Drop)]
pub struct KnownId {
    /// The id.
    pub(crate) id: u32,
}

impl Keyed for KnownId {
    ghost key_of = { λ known. known.id };

    fn key(&self) -> u64 {
        u64::from(self.id)
    }
}

/// The ids of items.
fn item_ids(alloc: Global, rows: &[Item]) -> Result<Vec<KnownId>, AllocError>
    ensures value { IfOk result (λ ids. ids.items ≡ map (λ row. record { id = row.item_id }) rows.now) }
{
    rows.iter()
        .map(|row| KnownId { id: row.item_id })
        .collect(alloc)
}

/// The ids of outputs.
fn output_ids(alloc: Global, rows: &[FmXref]) -> Result<Vec<KnownId>, AllocError>
    ensures value { IfOk result (λ ids. ids.items ≡ map (λ row. record { id = row.output_id }) rows.now) }
{
    rows.iter()
        .map(|row| KnownId { id: row.output_id })
        .collect(alloc)
}

/// The ids that a record may have.
fn loss_ids(alloc: Global, items: bool, tables: &Tables) -> Result<Vec<KnownId>, AllocError>
    ensures value { IfOk result (λ ids. ids.items ≡ known_rows items (rows_of tables.now)) }
{
    if items {
        item_ids(alloc, &tables.items)
    } else {
        output_ids(alloc, &tables.fm_xref)
    }
}

/// The ids that a record may have, in order. An error is want of memory.
pub(crate) fn known_ids(
    alloc: Global,
    items: bool,
    tables: &Tables,
) -> Result<ByKey<KnownId>, AllocError>
    ensures value { IfOk result (λ ids. (id : ℕ) → has_id ids id ≡ is_known items (rows_of tables.now) id) }
{
    let ids = loss_ids(alloc, items, tables)?;
    ByKey::of_rows(ids)
}

/// Whether an id is among those that a record may have.
pub(crate) fn is_among(ids: &ByKey<KnownId>, id: u32) -> bool
    ensures value { result ≡ has_id ids.now id }
{
    !ids.of(u64::from(id)).is_empty()
}
