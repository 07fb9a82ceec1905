//! One part of an event list.
//! The rules: docs/COMMANDS.md, "eve".
ghost use Rattle.std.specs.Prelude.{◌≡◌, ◌<◌, ◌≤◌, length};
ghost use Rattle.std.specs.Result.{result_map_both};
ghost use Rattle.kt_eve.specs.Parts.{end_of_part, part_or_none};

/// There is no such part: its number is 0, or above the number of parts.
#[derive(Clone, Copy)]
pub struct BadPart;

/// Part p of n of the events, of which none is moved: those from the position
/// floor((p - 1) * E / n) up to, and not including, floor(p * E / n), where E is their number.
/// `BadPart` comes exactly where p is 0, n is 0 or p is above n.
pub fn part(events: &[u32], p: u32, n: u32) -> Result<&[u32], BadPart>
    ensures exact { result_map_both (λ part. part.now) (λ bad. bad) result ≡ part_or_none events.now p n }
{
    if p < 1 || n < p {
        return Err(BadPart);
    }
    let start = end_of(events.len(), p - 1, n);
    let end = end_of(events.len(), p, n);
    Ok(&events[start..end])
}

// How many of the events the first p of n parts hold.
fn end_of(events: usize, p: u32, n: u32) -> usize
    requires some { 0 < n }
    requires within { p ≤ n }

    ensures value { result ≡ end_of_part events p n }
    ensures fits { result ≤ events }
{
    (p as u128 * events as u128 / n as u128) as usize
}
