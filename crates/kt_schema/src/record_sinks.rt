//! Sinks of rows: the records of a file, made of them, and one that keeps none.
//! The rule: docs/TABLES.md, "Files of tables".
ghost use Rattle.std.specs.Prelude.{◌≡◌, ◌++◌, ◌∷◌, [], map, drop};
ghost use Rattle.kt_cells.specs.Records.{record_bytes, records_bytes};
ghost use Rattle.kt_rec.specs.declared.table.Table.TheVariants.{Footprint};
ghost use Rattle.kt_schema.specs.Tables.{kinds_of};

use byteorder::{ByteOrder, LittleEndian};
use kt_cells::{Kind, RowSink, push_record};
use kt_money::Bytes;
use std::alloc::AllocError;

/// Records with columns of the kinds by which the rows are read, which stand behind what is in `out`.
#[derive(Drop)]
pub struct Records {
    /// The header of the file, and the records behind it.
    pub out: Bytes,
}

impl<const N: usize> RowSink<N> for Records {
    ghost use Rattle.std.specs.Prelude.{⊤};

    ghost takes = { λ _. ⊤ };

    ghost takes_to = { λ kinds start rows now. now.out ≡ start.out ++ records_bytes kinds rows };

    #[inline(always)]
    fn take(&mut self, kinds: &[Kind; N], row: &[u64; N]) -> Result<(), AllocError> {
        push_record(&mut self.out, kinds, row)?;
        Ok(())
    }
}

/// The bytes of a record of the footprint file.
#[inline(always)]
fn footprint_record(areaperil: u32, intensity: u32, prob: u32) -> [u8; 12]
    ensures { result ≡ record_bytes (drop 1 (kinds_of Footprint)) (areaperil ∷ intensity ∷ prob ∷ []) }
{
    let mut record = [0; 12];
    LittleEndian::write_u32(&mut record, areaperil);
    LittleEndian::write_u32(&mut record[4..], intensity);
    LittleEndian::write_u32(&mut record[8..], prob);
    record
}

/// Records of the footprint, which leave the event out, behind what is in `out`.
#[derive(Drop)]
pub struct FootprintRecords {
    /// The header of the file, and the records behind it.
    pub out: Bytes,
}

impl RowSink<4> for FootprintRecords {
    ghost use Rattle.kt_cells.specs.Ranges.{FitsBytes};

    ghost takes = { FitsBytes (kinds_of Footprint) };

    ghost takes_to = { λ _ start rows now. now.out ≡ start.out ++ records_bytes (drop 1 (kinds_of Footprint)) (map (drop 1) rows) };

    #[inline(always)]
    fn take(&mut self, _kinds: &[Kind; 4], row: &[u64; 4]) -> Result<(), AllocError> {
        let [_event, areaperil, intensity, prob] = *row;
        let record = footprint_record(areaperil as u32, intensity as u32, prob as u32);
        self.out.append(&record)?;
        Ok(())
    }
}

/// Takes rows and keeps none: what is read is judged, and no more.
#[derive(Clone, Copy)]
pub struct Judged;

impl<const N: usize> RowSink<N> for Judged {
    ghost use Rattle.std.specs.Prelude.{⊤};

    ghost takes = { λ _. ⊤ };

    ghost takes_to = { λ _ _ _ _. ⊤ };

    #[inline(always)]
    fn take(&mut self, _kinds: &[Kind; N], _row: &[u64; N]) -> Result<(), AllocError> {
        Ok(())
    }
}
