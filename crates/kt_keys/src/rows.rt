//! The first row of a list that repeats a key, has an unknown key, or makes a sum too large.
//! The rule: docs/CHECKS.md, "Order".
ghost use Rattle.std.specs.Prelude.{◌≡◌, ℕ, nat_eq, not, true, None, IfOk};
ghost use Rattle.std.specs.List.{list_any};
ghost use Rattle.std.specs.HashSet.{contains, IsFromIterResult};
ghost use Rattle.std.specs.HashMap.{get};
ghost use Rattle.std.specs.Map.{lookup};
ghost use Rattle.std.specs.Set.{distinct_count};
ghost use Rattle.kt_keys.specs.Keys.{same_pair};
ghost use Rattle.kt_keys.specs.FirstRow.{first_where, repeated_at, unknown_at, above_at};

use std::alloc::{AllocError, Global};
use std::collections::{HashMap, HashSet};
use std::hash::Hash;

/// Whether each key is above the one before it, so that none is repeated.
fn rises<K: Copy + Ord + Drop>(keys: &[K]) -> bool
    ensures distinct { result ≡ true → repeated_at K.eq keys.now ≡ None }
{
    let Some(first) = keys.first() else {
        return true;
    };
    let mut last = *first;
    for key in &keys[1..] {
        if last.cmp(key).is_ge() {
            return false;
        }
        last = *key;
    }
    true
}

/// A copy of keys. The error is want of memory.
fn copy_of<K: Copy + Drop>(alloc: Global, keys: &[K]) -> Result<Vec<K>, AllocError>
    ensures value { IfOk result (λ copy. copy.items ≡ keys.now) }
{
    keys.iter().copied().collect(alloc)
}

/// Whether no key is equal to another: put in order, each is above the one before it. Where the rows come in a few parts that rise,
/// as in most tables whose keys do not, that takes a fraction of the time of a set. The error is want of memory.
fn are_distinct<K: Copy + Ord + Drop>(alloc: Global, keys: &[K]) -> Result<bool, AllocError>
    ensures value { IfOk result (λ distinct. distinct ≡ true → repeated_at K.eq keys.now ≡ None) }
{
    let mut ordered = copy_of(alloc, keys)?;
    ordered.sort()?;
    Ok(rises(ordered.as_slice()))
}

/// The first row, counted from 1, whose key stands in an earlier row. Keys that rise, as they do in most tables, are seen in
/// one pass and take no memory, and a set is made only where some key is repeated.
pub(crate) fn first_repeated<K: Copy + Ord + Hash + Drop>(
    alloc: Global,
    keys: &[K],
) -> Result<Option<u64>, AllocError>
    ensures value { IfOk result (λ row. row ≡ repeated_at K.eq keys.now) }
{
    if rises(keys) || are_distinct(alloc, keys)? {
        return Ok(None);
    }
    let mut seen: HashSet<K> = HashSet::new(alloc);
    for (index, key) in keys.iter().enumerate() {
        if !seen.insert(*key)? {
            return Ok(Some(index as u64 + 1));
        }
    }
    Ok(None)
}

/// The keys of a list as a set, each of them put in. The error is want of memory.
fn each_in_set<K: Copy + Eq + Hash + Drop>(
    alloc: Global,
    keys: &[K],
) -> Result<HashSet<K>, AllocError>
    ensures value { IfOk result (IsFromIterResult K.eq keys.now) }
{
    keys.iter().copied().collect(alloc)
}

/// The keys of a list as a set. Those that follow one another are put in once. The error is want of memory.
pub fn set_of<K: Copy + Eq + Hash + Drop>(
    alloc: Global,
    keys: &[K],
) -> Result<HashSet<K>, AllocError>
    ensures value { IfOk result (IsFromIterResult K.eq keys.now) }
{
    let mut once = copy_of(alloc, keys)?;
    once.dedup();
    let set = each_in_set(alloc, once.as_slice())?;
    Ok(set)
}

/// The first row, counted from 1, whose key is not in the set.
fn first_outside<K: Copy + Eq + Hash + Drop>(known: &HashSet<K>, keys: &[K]) -> Option<u64>
    ensures value { result ≡ first_where (λ key. not (contains K.eq known.now key)) keys.now }
{
    for (index, key) in keys.iter().enumerate() {
        if !known.contains(key) {
            return Some(index as u64 + 1);
        }
    }
    None
}

/// Whether an id is the one that stands among known ones where it would if these rose by one from row to row.
#[inline]
fn is_in_place(known: &[u32], first: u32, id: u32) -> bool
    ensures known { result ≡ true → list_any (nat_eq id) known.now ≡ true }
{
    let place = id.wrapping_sub(first) as usize;
    place < known.len() && known[place] == id
}

/// Whether each id stands among known ones where it would if these rose by one from row to row, as ids mostly do: then none is
/// unknown, and no memory was taken.
fn are_in_place(known: &[u32], ids: &[u32]) -> bool
    ensures known { result ≡ true → first_where (λ id. not (list_any (nat_eq id) known.now)) ids.now ≡ None }
{
    let first = known.first().copied().unwrap_or(0);
    for id in ids {
        if !is_in_place(known, first, *id) {
            return false;
        }
    }
    true
}

/// The first row, counted from 1, whose id is not among the known ones.
#[tactic(auto, unfolding(crate::specs::FirstRow::unknown_at))]
pub(crate) fn first_unknown(
    alloc: Global,
    known: &[u32],
    ids: &[u32],
) -> Result<Option<u64>, AllocError>
    ensures value { IfOk result (λ row. row ≡ unknown_at nat_eq known.now ids.now) }
{
    if are_in_place(known, ids) {
        return Ok(None);
    }
    let known = set_of(alloc, known)?;
    Ok(first_outside(&known, ids))
}

/// The first row, counted from 1, at which what its key has so far adds to more than `most`.
/// The error is want of memory.
pub fn first_above<K: Copy + Eq + Hash + Drop>(
    alloc: Global,
    most: u64,
    parts: &[(K, u64)],
) -> Result<Option<u64>, AllocError>
    ensures value { IfOk result (λ row. row ≡ above_at K.eq most parts.now) }
{
    let mut totals: HashMap<K, u64> = HashMap::new(alloc);
    for (index, part) in parts.iter().enumerate() {
        let (key, amount) = *part;
        let before = totals.get(&key).copied().unwrap_or(0);
        if amount > most - before {
            return Ok(Some(index as u64 + 1));
        }
        totals.insert(key, before + amount)?;
    }
    Ok(None)
}

/// The value that each key has in its first row; a key of no row has none. The error is want of memory.
pub fn first_values<K: Copy + Eq + Hash + Drop, V: Copy + Drop>(
    alloc: Global,
    pairs: &[(K, V)],
) -> Result<HashMap<K, V>, AllocError>
    ensures value { IfOk result (λ values. (key : K) → get K.eq values key ≡ lookup (K.eq key) pairs.now) }
{
    let mut values: HashMap<K, V> = HashMap::with_capacity(alloc, pairs.len())?;
    // From the last row to the first, so that the value of the first row stays.
    let mut place = pairs.len();
    while place > 0 {
        place -= 1;
        let pair = pairs[place];
        values.insert(pair.0, pair.1)?;
    }
    Ok(values)
}

/// The pairs of a list as a set. The error is want of memory.
pub fn pair_set(alloc: Global, pairs: &[(u32, u32)]) -> Result<HashSet<(u32, u32)>, AllocError>
    ensures value { IfOk result (IsFromIterResult same_pair pairs.now) }
{
    set_of(alloc, pairs)
}

/// How many keys a list has, where those that are equal count once. They are put in order and left once each, which takes a fraction
/// of the time of a set.
fn distinct<K: Copy + Ord + Drop>(alloc: Global, keys: &[K]) -> Result<u64, AllocError>
    ensures value { IfOk result (λ count. count ≡ distinct_count K.eq keys.now) }
{
    let mut once = copy_of(alloc, keys)?;
    once.sort_unstable();
    once.dedup();
    Ok(once.as_slice().len() as u64)
}

/// How many pairs a list has, where those that are equal count once. The error is want of memory.
pub fn distinct_pairs(alloc: Global, pairs: &[(u32, u32)]) -> Result<u64, AllocError>
    ensures value { IfOk result (λ count. count ≡ distinct_count same_pair pairs.now) }
{
    distinct(alloc, pairs)
}
