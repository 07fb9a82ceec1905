//! Records of fields and pairs.
//! The rule: docs/STREAMS.md, "Records".
ghost use Rattle.std.specs.Prelude.{◌≡◌, ◌++◌, List, OnErr, OnOk};
ghost use Rattle.kt_stream.specs.Pairs.{pairs_bytes};
ghost use Rattle.kt_stream.specs.Summary.{summary_bytes};
ghost use Rattle.kt_stream.specs.declared.entry.Pair.{Pair};

use byteorder::{ByteOrder, LittleEndian};
use kt_money::{Bytes, OutOfMemory};

/// The bytes in front of the pairs of a summary record: those of the event, of the summary and of its exposure in cents.
#[inline]
pub fn summary_front(event: u32, summary: u32, exposure: u64) -> [u8; 16]
    ensures front { (pairs : List Pair) → summary_bytes (record { event = event; summary = summary; exposure = exposure; pairs = pairs }) ≡ result ++ pairs_bytes pairs }
{
    let mut front = [0; 16];
    LittleEndian::write_u32(&mut front, event);
    LittleEndian::write_u32(&mut front[4..], summary);
    LittleEndian::write_u64(&mut front[8..], exposure);
    front
}

/// Appends the bytes of the fields of a record and those of its pairs. An error is want of memory, and nothing is appended then.
pub fn append_record(out: &mut Bytes, fields: &[u8], pairs: &[u8]) -> Result<(), OutOfMemory>
    ensures ok { OnOk result (out.new ≡ out.old ++ (fields.now ++ pairs.now)) }
    ensures unchanged { OnErr result (out.new ≡ out.old) }
{
    let whole = out.len();
    out.append(fields)?;
    if let Err(stop) = out.append(pairs) {
        out.truncate(whole);
        return Err(stop);
    }
    Ok(())
}
