//! Records of pairs, and those of lanes, as they stand in a stream.
//! The rule: docs/STREAMS.md, "Records".
ghost use Rattle.std.specs.Prelude.{◌≡◌, ◌+◌, ◌*◌, ◌≤◌, ◌<◌, ◌++◌, List, [], length, slice_index, OnErr, OnOk};
ghost use Rattle.std.specs.List.{cons_option, flat_map};
ghost use Rattle.kt_stream.specs.Losses.{loss_bytes};
ghost use Rattle.kt_stream.specs.declared.entry.Pair.{Pair};
ghost use Rattle.kt_runs.specs.PairRoom.{AreEnded};
ghost use Rattle.kt_runs.specs.Records.{record_with};
ghost use Rattle.kt_runs.specs.LaneRows.{pairs_by_row};

use crate::byte_record::append_record;
use crate::kept_pairs::{end_pairs, keep_pair};
use crate::pairs::pair_at;
use kt_money::Bytes;
use kt_stream::loss_front;
use std::alloc::AllocError;

/// Writes the pairs of a lane of losses in cents, where they are above 0, and the end pair behind them, and gives how many bytes
/// these are: 0 where there is no pair. The first is that of the mean, and behind it stand those of the samples, at most 1,000.
fn write_lane(room: &mut [u8], lane: &[u64]) -> usize
    requires few { length lane.now ≤ 1001 }
    requires room { 12 * length lane.now + 12 ≤ length room.old }
    ensures value { AreEnded (pairs_by_row (slice_index lane.now) (length lane.now)) result room.new }
    ensures within { result ≤ length room.new }
    ensures room { length room.new ≡ length room.old }
{
    let mut used = 0;
    for row in 0..lane.len() {
        used = keep_pair(room, used, &pair_at(row as u32, lane[row]));
    }
    end_pairs(room, used)
}

/// Appends the record of an event and an id with the pairs that stand in a room, in so many bytes with the end pair behind them, as
/// it stands in a stream; where these are 0 there is no pair, and no record. An error is want of memory, and nothing is appended then.
pub fn put_pairs(
    event: u32,
    id: u32,
    room: &[u8],
    used: usize,
    out: &mut Bytes,
) -> Result<(), AllocError>
    requires within { used ≤ length room.now }
    ensures ok { OnOk result ((pairs : List Pair) → AreEnded pairs used room.now → out.new ≡ out.old ++ flat_map loss_bytes (cons_option (record_with event id pairs) [])) }
    ensures unchanged { OnErr result (out.new ≡ out.old) }
{
    if used == 0 {
        return Ok(());
    }
    append_record(out, &loss_front(event, id), &room[..used])
}

/// Appends the record of an event and an id with the pairs of a lane of losses in cents, where one is above 0, as it stands in a
/// stream; the room takes its pairs first. An error is want of memory, and nothing is appended then.
pub fn put_lane(
    event: u32,
    id: u32,
    lane: &[u64],
    room: &mut [u8],
    out: &mut Bytes,
) -> Result<(), AllocError>
    requires few { length lane.now ≤ 1001 }
    requires room { 12 * length lane.now + 12 ≤ length room.old }
    ensures room { length room.new ≡ length room.old }
    ensures ok { OnOk result (out.new ≡ out.old ++ flat_map loss_bytes (cons_option (record_with event id (pairs_by_row (slice_index lane.now) (length lane.now))) [])) }
    ensures unchanged { OnErr result (out.new ≡ out.old) }
{
    let used = write_lane(room, lane);
    put_pairs(event, id, room, used, out)
}
