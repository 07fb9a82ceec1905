//! Writes headers and records.
//! The rules: docs/STREAMS.md, "Headers" and "Records".
ghost use Rattle.std.specs.Prelude.{◌≡◌, ◌+◌, ◌<◌, ◌≤◌, ◌^◌, ℕ, List, ◌++◌, length, take, drop, OnOk, OnErr};
ghost use Rattle.std.specs.Int.{w32, cast_unsigned};
ghost use Rattle.byteorder.specs.Endian.{little_bytes};
ghost use Rattle.kt_stream.specs.declared.entry.Pair.{Pair};
ghost use Rattle.kt_stream.specs.declared.read.Read.TheVariants.{Got};
ghost use Rattle.kt_stream.specs.Header.{header_bytes, header_in, IsHead};
ghost use Rattle.kt_stream.specs.Pairs.{pairs_bytes, pair_bytes};
ghost use Rattle.kt_stream.specs.Bins.{bins_bytes, cdf_bytes, cdf_in, IsCdf};
ghost use Rattle.kt_stream.specs.Losses.{loss_bytes, loss_in, IsLoss};
ghost use Rattle.kt_stream.specs.Summary.{summary_bytes, summary_in, IsSummary};
ghost use Rattle.kt_stream.specs.Write.{BeginsWith};

use crate::entry::{Bin, Cdf, LossRecord, Pair, SummaryRecord};
use crate::kind::{Head, StreamKind};
use byteorder::{ByteOrder, LittleEndian};
use kt_money::{Bytes, OutOfMemory};

/// The pair behind those of a record.
pub const END: Pair = Pair { sidx: 0, loss: 0 };

/// Appends the header of a stream of a kind; what the kind has no field for is left out. An error is want
/// of memory, and nothing is appended then. A header in its ranges is read back, whatever follows it.
pub fn put_head(out: &mut Bytes, kind: StreamKind, head: Head) -> Result<(), OutOfMemory>
    ensures ok { OnOk result (out.new ≡ out.old ++ header_bytes kind head) }
    ensures back { (rest : List ℕ) → IsHead kind head → header_in kind (header_bytes kind head ++ rest) ≡ Got head }

    ensures unchanged { OnErr result (out.new ≡ out.old) }
{
    let mut bytes = [kind.id(), 0, 0, 101, 0, 0, 0, 0, 0, 0, 0, 0];
    LittleEndian::write_u32(&mut bytes[4..], head.samples);
    LittleEndian::write_u32(&mut bytes[8..], head.set);
    match kind {
        StreamKind::Cdf => out.append(&bytes[..4]),
        StreamKind::Gul | StreamKind::Loss => out.append(&bytes[..8]),
        StreamKind::Summary => out.append(&bytes),
        StreamKind::Events => Ok(()),
    }
}

/// Appends a summary record. An error is want of memory, and nothing is appended then. A record in its ranges
/// is read back, at any place and whatever follows it.
pub fn put_summary(out: &mut Bytes, entry: &SummaryRecord) -> Result<(), OutOfMemory>
    ensures ok { OnOk result (out.new ≡ out.old ++ summary_bytes entry.now) }
    ensures back { (samples : ℕ) (rest : List ℕ) (at : ℕ) → samples ≤ 1000 → IsSummary samples entry.now → summary_in samples (summary_bytes entry.now ++ rest) at ≡ Got entry.now }

    ensures unchanged { OnErr result (out.new ≡ out.old) }
{
    let mut front = [0; 16];
    LittleEndian::write_u32(&mut front, entry.event);
    LittleEndian::write_u32(&mut front[4..], entry.summary);
    LittleEndian::write_u64(&mut front[8..], entry.exposure);
    put_pair_record(out, &front, entry.pairs.as_slice())
}

/// Appends a record of losses. An error is want of memory, and nothing is appended then. A record in its ranges
/// is read back, at any place and whatever follows it.
pub fn put_loss(out: &mut Bytes, entry: &LossRecord) -> Result<(), OutOfMemory>
    ensures ok { OnOk result (out.new ≡ out.old ++ loss_bytes entry.now) }
    ensures back { (samples : ℕ) (rest : List ℕ) (at : ℕ) → samples ≤ 1000 → IsLoss samples entry.now → loss_in samples (loss_bytes entry.now ++ rest) at ≡ Got entry.now }

    ensures unchanged { OnErr result (out.new ≡ out.old) }
{
    let front = loss_front(entry.event, entry.id);
    put_pair_record(out, &front, entry.pairs.as_slice())
}

/// The bytes in front of the pairs of a record of losses: those of the event and of the id.
#[inline]
pub fn loss_front(event: u32, id: u32) -> [u8; 8]
    ensures front { (pairs : List Pair) → loss_bytes (record { event = event; id = id; pairs = pairs }) ≡ result ++ pairs_bytes pairs }
{
    let mut front = [0; 8];
    LittleEndian::write_u32(&mut front, event);
    LittleEndian::write_u32(&mut front[4..], id);
    front
}

/// Appends a damage distribution. An error is want of memory, and nothing is appended then. A distribution in its
/// ranges is read back, at any place and whatever follows it.
pub fn put_cdf(out: &mut Bytes, cdf: &Cdf) -> Result<(), OutOfMemory>
    ensures ok { OnOk result (out.new ≡ out.old ++ cdf_bytes cdf.now) }
    ensures back { (most : ℕ) (rest : List ℕ) (at : ℕ) → IsCdf most cdf.now → cdf_in most (cdf_bytes cdf.now ++ rest) at ≡ Got cdf.now }

    ensures unchanged { OnErr result (out.new ≡ out.old) }
{
    let bins = cdf.bins.as_slice();
    let mut front = [0; 20];
    LittleEndian::write_u32(&mut front, cdf.event);
    LittleEndian::write_u32(&mut front[4..], cdf.areaperil);
    LittleEndian::write_u32(&mut front[8..], cdf.vulnerability);
    LittleEndian::write_u64(&mut front[12..], bins.len() as u64);
    put_bin_record(out, &front[..16], bins)
}

/// Appends the fields of a distribution and the bins behind them, whole or not at all.
fn put_bin_record(out: &mut Bytes, fields: &[u8], bins: &[Bin]) -> Result<(), OutOfMemory>
    ensures ok { OnOk result (out.new ≡ out.old ++ (fields.now ++ bins_bytes bins.now)) }

    ensures unchanged { OnErr result (out.new ≡ out.old) }
{
    let before = out.len();
    if let Err(refusal) = put_fields_and_bins(out, fields, bins) {
        out.truncate(before);
        return Err(refusal);
    }
    Ok(())
}

/// Appends the fields of a distribution and the bins behind them, or some of them.
fn put_fields_and_bins(out: &mut Bytes, fields: &[u8], bins: &[Bin]) -> Result<(), OutOfMemory>
    ensures ok { OnOk result (out.new ≡ out.old ++ (fields.now ++ bins_bytes bins.now)) }

    ensures memory { OnErr result (BeginsWith out.old out.new) }
{
    out.append(fields)?;
    for bin in bins {
        put_bin(out, bin.prob_to, bin.mean)?;
    }
    Ok(())
}

/// Appends a bin.
fn put_bin(out: &mut Bytes, prob_to: u64, mean: u32) -> Result<(), OutOfMemory>
    ensures ok { OnOk result (out.new ≡ out.old ++ (little_bytes 8 prob_to ++ little_bytes 4 mean)) }

    ensures unchanged { OnErr result (out.new ≡ out.old) }
{
    let mut bytes = [0; 12];
    LittleEndian::write_u64(&mut bytes, prob_to);
    LittleEndian::write_u32(&mut bytes[8..], mean);
    out.append(&bytes)
}

/// Appends the fields of a record and the pairs behind them, whole or not at all.
fn put_pair_record(out: &mut Bytes, fields: &[u8], pairs: &[Pair]) -> Result<(), OutOfMemory>
    ensures ok { OnOk result (out.new ≡ out.old ++ (fields.now ++ pairs_bytes pairs.now)) }

    ensures unchanged { OnErr result (out.new ≡ out.old) }
{
    let before = out.len();
    if let Err(refusal) = put_fields_and_pairs(out, fields, pairs) {
        out.truncate(before);
        return Err(refusal);
    }
    Ok(())
}

/// Appends the fields of a record and the pairs behind them, or some of them.
fn put_fields_and_pairs(out: &mut Bytes, fields: &[u8], pairs: &[Pair]) -> Result<(), OutOfMemory>
    ensures ok { OnOk result (out.new ≡ out.old ++ (fields.now ++ pairs_bytes pairs.now)) }

    ensures memory { OnErr result (BeginsWith out.old out.new) }
{
    out.append(fields)?;
    for pair in pairs {
        put_pair(out, pair)?;
    }
    put_pair(out, &END)?;
    Ok(())
}

/// The four bytes of the sidx of a pair as a number.
#[inline]
fn word_of(pair: &Pair) -> u32
    ensures { result ≡ cast_unsigned w32 pair.now.sidx }
{
    pair.sidx.cast_unsigned()
}

/// Appends a pair.
#[inline]
fn put_pair(out: &mut Bytes, pair: &Pair) -> Result<(), OutOfMemory>
    ensures ok { OnOk result (out.new ≡ out.old ++ pair_bytes pair.now) }

    ensures unchanged { OnErr result (out.new ≡ out.old) }
{
    let mut bytes = [0; 12];
    write_pair(&mut bytes, 0, pair);
    out.append(&bytes)
}

/// Writes a pair over the twelve bytes from a place on.
#[inline]
pub fn write_pair(bytes: &mut [u8], at: usize, pair: &Pair)
    requires { at + 12 ≤ length bytes.old }
    ensures value { bytes.new ≡ take at bytes.old ++ (pair_bytes pair.now ++ drop (at + 12) bytes.old) }
{
    let mut fields = [0; 12];
    LittleEndian::write_u32(&mut fields, word_of(pair));
    LittleEndian::write_u64(&mut fields[4..], pair.loss);
    bytes[at..at + 12].copy_from_slice(&fields);
}
