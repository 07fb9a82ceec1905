//! The places of the random numbers of an item's samples, one after the other.
//! The rule: docs/CALCULATION.md, "Random numbers".
ghost use Rattle.std.specs.Prelude.{◌≡◌, ℕ, ◌+◌, ◌<◌, ◌≤◌, ◌^◌, length, map, slice_index_or};
ghost use Rattle.kt_tables.specs.Lookups.{random_place};

use kt_rec::Random;

/// The place of the random number of the first sample of an event and a group, of so many numbers.
pub(crate) fn first_place(numbers: u64, event: u32, group: u32) -> u64
    requires some { 1 ≤ numbers }
    requires few { numbers < 2 ^ 63 }
    ensures value { result ≡ random_place numbers event group 1 }
    ensures within { result < numbers }
{
    (u64::from(event) * 1_543_270_363 + u64::from(group) * 1_943_272_559) % numbers
}

/// The place of the random number of the sample behind that with this place.
#[inline]
pub(crate) fn next_place(numbers: u64, place: u64) -> u64
    requires within { place < numbers }
    ensures value { (event : ℕ) (group : ℕ) (sample : ℕ) → place ≡ random_place numbers event group (sample + 1) → result ≡ random_place numbers event group (sample + 2) }
    ensures within { result < numbers }
{
    if place + 1 == numbers { 0 } else { place + 1 }
}

/// The random number at a place.
#[inline]
pub(crate) fn random_at(numbers: &[Random], place: u64) -> u32
    requires { place < length numbers.now }
    ensures value { result ≡ slice_index_or (map (λ row. row.random) numbers.now) place 0 }
{
    numbers[place as usize].random
}
