//! The index of the footprint.
//! The rule: docs/TABLES.md, "Footprint".
ghost use Rattle.std.specs.Prelude.{◌≡◌, ◌+◌, ◌++◌, ◌∷◌, [], None, IfOk, OnOk};
ghost use Rattle.byteorder.specs.Endian.{little_bytes};
ghost use Rattle.kt_cells.specs.Records.{record_bytes, records_bytes};
ghost use Rattle.kt_rec.specs.declared.table.Table.TheVariants.{FootprintIdx};
ghost use Rattle.kt_schema.specs.Index.{index_row, index_behind};
ghost use Rattle.kt_schema.specs.Tables.{kinds_of};

use kt_cells::{Kind, RowSink};
use kt_money::Bytes;
use std::alloc::{AllocError, Global};

// How many bytes a record of the footprint file takes.
const FOOTPRINT_WIDTH: u64 = 12;

// The place of the first record, behind the header.
const FIRST_OFFSET: u64 = 16;

/// A row of the index whose event may go on: its event, the place of its first record, and the size of those so far.
#[derive(Clone, Copy)]
pub(crate) struct OpenEntry {
    event: u64,
    offset: u64,
    size: u64,
}

/// The index of footprint rows, made of them one by one: the rows of the index whose events are over stand in `out`.
#[derive(Drop)]
pub struct IndexRecords {
    out: Bytes,
    last: Option<OpenEntry>,
}

impl IndexRecords {
    /// No row yet. Takes no memory.
    pub fn new(alloc: Global) -> Self
        ensures empty { result.out ≡ [] }
        ensures none { result.last ≡ None }
    {
        IndexRecords {
            out: Bytes::new(alloc),
            last: None,
        }
    }

    /// The index of all rows that were taken. An error is want of memory.
    pub fn finish(self) -> Result<Bytes, AllocError>
        ensures { IfOk result (λ bytes. bytes ≡ self.out ++ records_bytes (kinds_of FootprintIdx) (index_behind self.last [])) }
    {
        match self.last {
            None => Ok(self.out),
            Some(entry) => {
                let mut out = self.out;
                push_entry(&mut out, entry)?;
                Ok(out)
            }
        }
    }
}

impl RowSink<4> for IndexRecords {
    ghost use Rattle.std.specs.Prelude.{ℕ, List, ⊤};

    ghost takes = { λ _. ⊤ };

    // Whatever rows follow, the index goes on as that of all rows does.
    ghost takes_to = { λ _ start rows now. (more : List (List ℕ)) → now.out ++ records_bytes (kinds_of FootprintIdx) (index_behind now.last more) ≡ start.out ++ records_bytes (kinds_of FootprintIdx) (index_behind start.last (rows ++ more)) };

    #[inline(always)]
    fn take(&mut self, _kinds: &[Kind; 4], row: &[u64; 4]) -> Result<(), AllocError> {
        let event = row[0];
        match self.last {
            None => {
                self.last = Some(first_entry(event));
            }
            Some(entry) => {
                if event == entry.event {
                    self.last = Some(longer(entry)?);
                } else {
                    let next = entry_behind(entry, event)?;
                    push_entry(&mut self.out, entry)?;
                    self.last = Some(next);
                }
            }
        }
        Ok(())
    }
}

// The row of the first event.
fn first_entry(event: u64) -> OpenEntry
    ensures { result ≡ record { event = event; offset = 16; size = 12 } }
{
    OpenEntry {
        event,
        offset: FIRST_OFFSET,
        size: FOOTPRINT_WIDTH,
    }
}

// A row of the index with a record more. No memory has room for records whose size is no number of 64 bits.
fn longer(entry: OpenEntry) -> Result<OpenEntry, AllocError>
    ensures { IfOk result (λ next. next ≡ record { event = entry.event; offset = entry.offset; size = entry.size + 12 }) }
{
    match entry.size.checked_add(FOOTPRINT_WIDTH) {
        None => Err(AllocError),
        Some(size) => Ok(OpenEntry {
            event: entry.event,
            offset: entry.offset,
            size,
        }),
    }
}

// The row of the index behind another one.
fn entry_behind(entry: OpenEntry, event: u64) -> Result<OpenEntry, AllocError>
    ensures { IfOk result (λ next. next ≡ record { event = event; offset = entry.offset + entry.size; size = 12 }) }
{
    match entry.offset.checked_add(entry.size) {
        None => Err(AllocError),
        Some(offset) => Ok(OpenEntry {
            event,
            offset,
            size: FOOTPRINT_WIDTH,
        }),
    }
}

// Appends a row of the index.
#[tactic(auto, unfolding(kt_cells::specs::Records::records_bytes, kt_cells::specs::Records::record_bytes))]
fn push_entry(out: &mut Bytes, entry: OpenEntry) -> Result<(), AllocError>
    ensures ok { OnOk result (out.new ≡ out.old ++ record_bytes (kinds_of FootprintIdx) (index_row entry.event entry.offset entry.size)) }
{
    out.append(&entry.event.to_le_bytes()[..4])?;
    out.append(&entry.offset.to_le_bytes())?;
    out.append(&entry.size.to_le_bytes())?;
    Ok(())
}
