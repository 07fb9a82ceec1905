//! Rows in the order of a key, and the rows of one key.
//! The rule: docs/TABLES.md, "Lookups".
ghost use Rattle.std.specs.Prelude.{◌≡◌, true, ◌≤◌, ◌-◌, ℕ, ◌&&◌, nat_eq, nat_le, length, take, drop, IfOk};
ghost use Rattle.std.specs.List.{filter};
ghost use Rattle.std.specs.List.Sorted.{IsPermutation, IsNonDecreasingBy};
ghost use Rattle.kt_index.specs.KeyEnds.{IsBelow, IsUpto, KeyEnds};

use std::alloc::{AllocError, Global};
use std::marker::Model;

/// A row that has a key.
pub trait Keyed: Copy + Drop {
    ghost key_of: { Self → ℕ };

    /// The row's key.
    fn key(&self) -> u64
        ensures value { result ≡ key_of self.now };
}

/// Rows by rising key. Contracts see the list of the rows in that order.
#[derive(Drop)]
pub struct ByKey<T: Keyed> {
    rows: Vec<T>,
}

impl<T: Keyed> Model for ByKey<T> {
    ghost use Rattle.std.specs.Prelude.{List};
    ghost use Rattle.std.specs.List.Sorted.{IsNonDecreasingBy};

    ghost Value = { List T };

    ghost view = { λ index. index.rows.items };

    ghost invariant = { λ index. IsNonDecreasingBy T.key_of index.rows.items };
}

impl<T: Keyed> ByKey<T> {
    /// The rows by rising key; rows of one key stay in their order. An error is want of memory.
    pub fn new(alloc: Global, rows: &[T]) -> Result<ByKey<T>, AllocError>
        ensures permutation { IfOk result (IsPermutation rows.now) }
        ensures kept { IfOk result (λ index. (key : ℕ) → filter (λ row. nat_eq (T.key_of row) key) index ≡ filter (λ row. nat_eq (T.key_of row) key) rows.now) }
    {
        let rows = copy_of(alloc, rows)?;
        let index = ByKey::of_rows(rows)?;
        Ok(index)
    }

    /// The rows by rising key, put in order where they are; rows of one key stay in their order. An error is want of memory.
    pub fn of_rows(rows: Vec<T>) -> Result<ByKey<T>, AllocError>
        ensures permutation { IfOk result (IsPermutation rows.items) }
        ensures kept { IfOk result (λ index. (key : ℕ) → filter (λ row. nat_eq (T.key_of row) key) index ≡ filter (λ row. nat_eq (T.key_of row) key) rows.items) }
    {
        if is_by_key(&rows) {
            return Ok(ByKey { rows });
        }
        let mut rows = rows;
        rows.sort_by_key(|row| row.key())?;
        Ok(ByKey { rows })
    }

    /// All rows by rising key.
    pub fn as_slice(&self) -> &[T]
        ensures value { result.now ≡ self.now }
        ensures rising { IsNonDecreasingBy T.key_of self.now }
    {
        &self.rows
    }

    /// The rows of a key, none where it has none.
    pub fn of(&self, key: u64) -> &[T]
        ensures value { result.now ≡ filter (λ row. nat_eq (T.key_of row) key) self.now }
    {
        rows_of(&self.rows, key)
    }
}

/// Whether rows stand by rising key already.
pub fn is_by_key<T: Keyed>(rows: &[T]) -> bool
    ensures rising { result ≡ true → IsNonDecreasingBy T.key_of rows.now }
{
    let mut last = 0;
    for row in rows {
        let key = row.key();
        if key < last {
            return false;
        }
        last = key;
    }
    true
}

/// The rows of a key among rows by rising key, none where it has none.
pub fn rows_of<T: Keyed>(rows: &[T], key: u64) -> &[T]
    requires { IsNonDecreasingBy T.key_of rows.now }
    ensures value { result.now ≡ filter (λ row. nat_eq (T.key_of row) key) rows.now }
{
    rows_between(rows, key, key)
}

/// The rows whose keys are from one up to another, among rows by rising key.
pub fn rows_between<T: Keyed>(rows: &[T], low: u64, top: u64) -> &[T]
    requires rising { IsNonDecreasingBy T.key_of rows.now }
    requires order { low ≤ top }
    ensures value { result.now ≡ filter (λ row. nat_le low (T.key_of row) && nat_le (T.key_of row) top) rows.now }
    ensures rising { IsNonDecreasingBy T.key_of result.now }
{
    let (start, end) = ends(rows, low, top);
    between(rows, start, end)
}

/// The rows of a key among rows by rising key, none where it has none. They are looked for first at the place from which the last
/// ones stand, which is then the place of these.
pub fn rows_near<'a, T: Keyed>(rows: &'a [T], key: u64, near: &mut usize) -> &'a [T]
    requires { IsNonDecreasingBy T.key_of rows.now }
    ensures value { result.now ≡ filter (λ row. nat_eq (T.key_of row) key) rows.now }
{
    let start = start_near(rows, key, *near);
    *near = start;
    let end = start + rows_in_front(&rows[start..], key);
    between(rows, start, end)
}

/// A copy of rows.
fn copy_of<T: Copy + Drop>(alloc: Global, rows: &[T]) -> Result<Vec<T>, AllocError>
    ensures value { IfOk result (λ copy. copy.items ≡ rows.now) }
{
    rows.iter().copied().collect(alloc)
}

/// The places at which the rows of a range of keys begin and end.
fn ends<T: Keyed>(rows: &[T], low: u64, top: u64) -> (usize, usize)
    requires rising { IsNonDecreasingBy T.key_of rows.now }
    requires order { low ≤ top }
    ensures value { KeyEnds T.key_of rows.now low top result.0 result.1 }
{
    let start = rows_below(rows, low);
    let found = rows_upto(&rows[start..], top);
    (start, start + found)
}

/// How many rows have a key below one, where that may be so many.
fn start_near<T: Keyed>(rows: &[T], low: u64, near: usize) -> usize
    requires rising { IsNonDecreasingBy T.key_of rows.now }
    ensures within { result ≤ length rows.now }
    ensures value { IsBelow T.key_of rows.now low result }
{
    if is_start(rows, low, near) {
        return near;
    }
    rows_below(rows, low)
}

/// How many rows have a key up to a greatest, counted one by one: for few rows.
fn rows_in_front<T: Keyed>(rows: &[T], top: u64) -> usize
    requires rising { IsNonDecreasingBy T.key_of rows.now }
    ensures within { result ≤ length rows.now }
    ensures value { IsUpto T.key_of rows.now top result }
{
    let mut count = 0;
    while count < rows.len() && rows[count].key() <= top {
        count += 1;
    }
    count
}

/// How many rows have a key below one. Where keys rise by one from row to row, as ids mostly do, that is known from the first.
fn rows_below<T: Keyed>(rows: &[T], low: u64) -> usize
    requires rising { IsNonDecreasingBy T.key_of rows.now }
    ensures within { result ≤ length rows.now }
    ensures value { IsBelow T.key_of rows.now low result }
{
    let first = match rows.first() {
        Some(row) => row.key(),
        None => return 0,
    };
    let guess = low.saturating_sub(first) as usize;
    if is_start(rows, low, guess) {
        return guess;
    }
    rows.partition_point(|row| row.key() < low)
}

/// Whether so many rows have a key below one, where there are more.
#[inline]
fn is_start<T: Keyed>(rows: &[T], low: u64, place: usize) -> bool
    requires rising { IsNonDecreasingBy T.key_of rows.now }
    ensures within { result ≡ true → place ≤ length rows.now }
    ensures value { result ≡ true → IsBelow T.key_of rows.now low place }
{
    if place >= rows.len() || rows[place].key() < low {
        return false;
    }
    place == 0 || rows[place - 1].key() < low
}

/// How many rows have a key up to a greatest. Mostly that is one row.
fn rows_upto<T: Keyed>(rows: &[T], top: u64) -> usize
    requires rising { IsNonDecreasingBy T.key_of rows.now }
    ensures within { result ≤ length rows.now }
    ensures value { IsUpto T.key_of rows.now top result }
{
    if rows.is_empty() || rows[0].key() > top {
        return 0;
    }
    if rows.len() == 1 || rows[1].key() > top {
        return 1;
    }
    rows.partition_point(|row| row.key() <= top)
}

/// The rows from a place up to but not including another.
fn between<T>(rows: &[T], start: usize, end: usize) -> &[T]
    requires order { start ≤ end }
    requires within { end ≤ length rows.now }
    ensures value { result.now ≡ take (end - start) (drop start rows.now) }
{
    &rows[start..end]
}
