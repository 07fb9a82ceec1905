//! The pairs of a record, written one behind the other into room for them.
//! The rule: docs/STREAMS.md, "Records".
ghost use Rattle.std.specs.Prelude.{◌≡◌, ◌+◌, ◌*◌, ◌<◌, ◌≤◌, ◌^◌, ◌++◌, List, length, IfOk};
ghost use Rattle.kt_stream.specs.declared.entry.Pair.{Pair};
ghost use Rattle.kt_runs.specs.PairRoom.{AreEnded, AreIn, with_loss};

use kt_stream::{END, Pair, write_pair};
use std::alloc::{AllocError, Global};

/// The length of a pair in bytes.
const PAIR: usize = 12;

/// Room for so many pairs and the end pair. An error is want of memory.
pub fn pair_room(alloc: Global, pairs: usize) -> Result<Vec<u8>, AllocError>
    requires { pairs < 2 ^ 60 }
    ensures room { IfOk result (λ room. length room.items ≡ 12 * pairs + 12) }
{
    let room = vec![in alloc; 0; PAIR * pairs + PAIR]?;
    Ok(room)
}

/// The length of a pair with this loss in bytes: 0 where the loss is 0, as it is no pair.
#[inline]
fn length_of(loss: u64) -> usize
    ensures some { 0 < loss → result ≡ 12 }
    ensures none { loss ≡ 0 → result ≡ 0 }
    ensures few { result ≤ 12 }
{
    PAIR * usize::from(loss > 0)
}

/// Writes a pair behind the bytes of those that are in the room, and answers how many bytes they have with it: as many as before where
/// its loss is 0.
#[inline]
pub fn keep_pair(room: &mut [u8], used: usize, pair: &Pair) -> usize
    requires room { used + 12 ≤ length room.old }
    ensures kept { (pairs : List Pair) → AreIn pairs used room.old → AreIn (pairs ++ with_loss pair.now) result room.new }
    ensures few { result ≤ used + 12 }
    ensures room { length room.new ≡ length room.old }
{
    write_pair(room, used, pair);
    used + length_of(pair.loss)
}

/// Writes the end pair behind the bytes of the pairs that are in the room, and answers how many bytes they have with it: 0 where there
/// is no pair.
#[inline]
pub fn end_pairs(room: &mut [u8], used: usize) -> usize
    requires room { used + 12 ≤ length room.old }
    ensures ended { (pairs : List Pair) → AreIn pairs used room.old → AreEnded pairs result room.new }
    ensures within { result ≤ length room.new }
    ensures room { length room.new ≡ length room.old }
{
    if used == 0 {
        return 0;
    }
    write_pair(room, used, &END);
    used + PAIR
}
