//! Values of units by level, found without hashing where the units of a level are numbered closely.
//! The rule: docs/FINANCIAL_MODULE.md, "Levels".
ghost use Rattle.std.specs.Prelude.{◌≡◌, ◌&&◌, ℕ, Some, cond, length, map, nat_eq, nat_lt, slice_get, slice_set, unwrap_or, false, IfOk};
ghost use Rattle.std.specs.HashMap.{get};
ghost use Rattle.std.specs.List.{range_with_len};
ghost use Rattle.std.specs.Map.{lookup};
ghost use Rattle.kt_keys.specs.Keys.{same_pair};
ghost use Rattle.kt_keys.specs.UnitTable.{first_row, has_place, has_unit, no_row, row_at, row_from, value_of};

use std::alloc::{AllocError, Global};
use std::collections::HashMap;

/// How many levels may have values side by side: a level is at most 12.
const LEVELS: u32 = 13;

/// Values of units by level. Where the units of a level are numbered closely, their values stand side by side, by unit; the others
/// are found by their hash.
#[derive(Drop)]
pub struct UnitTable<V: Copy + Drop> {
    pub(crate) rows: Vec<Vec<Option<V>>>,
    pub(crate) rest: HashMap<(u32, u32), V>,
}

/// How many pairs have a unit of a level, and the least number above these units.
#[derive(Clone, Copy, Drop)]
struct Extent {
    count: u32,
    end: u32,
}

impl Extent {
    /// With one unit more.
    fn with(self, unit: u32) -> Extent {
        Extent {
            count: self.count.saturating_add(1),
            end: self.end.max(unit.saturating_add(1)),
        }
    }

    /// How many units from 0 on have their values side by side: all, where they are at most four times as many as the pairs, and else
    /// none.
    fn width(self) -> u32 {
        if self.end / 4 <= self.count {
            self.end
        } else {
            0
        }
    }
}

/// How many units of each level have their values side by side.
fn widths_of<V: Copy + Drop>(
    alloc: Global,
    pairs: &[((u32, u32), V)],
) -> Result<Vec<u32>, AllocError> {
    let mut extents = [Extent { count: 0, end: 0 }; 13];
    for pair in pairs {
        let (level, unit) = pair.0;
        if let Some(extent) = extents.get_mut(level as usize) {
            *extent = extent.with(unit);
        }
    }
    let mut widths = Vec::with_capacity(alloc, 13)?;
    for extent in &extents {
        widths.push(extent.width())?;
    }
    Ok(widths)
}

/// How many units of a level have their values side by side.
fn width_at(widths: &[u32], level: u32) -> u32
    ensures value { result ≡ unwrap_or (slice_get widths.now level) 0 }
{
    widths.get(level as usize).copied().unwrap_or(0)
}

/// Whether a unit of a level has its value side by side with others.
fn has_place(widths: &[u32], level: u32, unit: u32) -> bool
    ensures value { result ≡ has_place widths.now (level, unit) }
{
    level < LEVELS && unit < width_at(widths, level)
}

/// Places for the values of units from 0 on, none of which has one.
fn no_row<V: Copy + Drop>(alloc: Global, width: u32) -> Result<Vec<Option<V>>, AllocError>
    ensures value { IfOk result (λ row. row.items ≡ no_row width) }
{
    let mut row = Vec::with_capacity(alloc, width as usize)?;
    for _unit in 0..width {
        row.push(None)?;
    }
    Ok(row)
}

/// Puts the value of a unit into its place, where it is a unit of this level and has one.
fn put_value<V: Copy + Drop>(row: &mut [Option<V>], level: u32, key: (u32, u32), value: V)
    ensures value { row.new ≡ cond (nat_eq key.0 level && nat_lt key.1 (length row.old)) (slice_set row.old key.1 (Some value)) row.old }
{
    if key.0 == level && (key.1 as usize) < row.len() {
        row[key.1 as usize] = Some(value);
    }
}

/// Puts the value that each unit of a level has in its first pair into its place.
fn fill_row<V: Copy + Drop>(row: &mut [Option<V>], pairs: &[((u32, u32), V)], level: u32)
    requires none { row.old ≡ no_row (length row.old) }
    ensures value { row.new ≡ first_row pairs.now level (length row.old) }
{
    // From the last pair to the first, so that the value of the first stays.
    let mut place = pairs.len();
    while place > 0 {
        place -= 1;
        let pair = pairs[place];
        put_value(row, level, pair.0, pair.1);
    }
}

/// The values of the units of a level from 0 on, each that of the unit's first pair.
fn row_of<V: Copy + Drop>(
    alloc: Global,
    pairs: &[((u32, u32), V)],
    level: u32,
    width: u32,
) -> Result<Vec<Option<V>>, AllocError>
    ensures value { IfOk result (λ row. row.items ≡ first_row pairs.now level width) }
{
    let mut row = no_row(alloc, width)?;
    if width == 0 {
        return Ok(row);
    }
    fill_row(&mut row, pairs, level);
    Ok(row)
}

/// The values of the units of levels from 0 on.
fn rows_of<V: Copy + Drop>(
    alloc: Global,
    pairs: &[((u32, u32), V)],
    widths: &[u32],
    levels: u32,
) -> Result<Vec<Vec<Option<V>>>, AllocError>
    ensures value { IfOk result (λ rows. map (λ row. row.items) rows.items ≡ map (row_from pairs.now widths.now) (range_with_len 0 levels)) }
{
    let mut rows = Vec::with_capacity(alloc, levels as usize)?;
    for level in 0..levels {
        rows.push(row_of(alloc, pairs, level, width_at(widths, level))?)?;
    }
    Ok(rows)
}

/// The values of the units that have no place side by side with others, each that of the unit's first pair.
fn rest_of<V: Copy + Drop>(
    alloc: Global,
    pairs: &[((u32, u32), V)],
    widths: &[u32],
) -> Result<HashMap<(u32, u32), V>, AllocError>
    ensures value { IfOk result (λ rest. (key : ℕ × ℕ) → has_place widths.now key ≡ false → get same_pair rest key ≡ lookup (same_pair key) pairs.now) }
{
    let mut rest: HashMap<(u32, u32), V> = HashMap::new(alloc);
    // From the last pair to the first, so that the value of the first stays.
    let mut place = pairs.len();
    while place > 0 {
        place -= 1;
        let pair = pairs[place];
        if !has_place(widths, pair.0.0, pair.0.1) {
            rest.insert(pair.0, pair.1)?;
        }
    }
    Ok(rest)
}

impl<V: Copy + Drop> UnitTable<V> {
    /// The values of pairs of a level and a unit: that of the first pair of each. An error is want of memory.
    pub fn new(alloc: Global, pairs: &[((u32, u32), V)]) -> Result<UnitTable<V>, AllocError>
        ensures value { IfOk result (λ table. (key : ℕ × ℕ) → value_of table key ≡ lookup (same_pair key) pairs.now) }
    {
        let widths = widths_of(alloc, pairs)?;
        let rows = rows_of(alloc, pairs, &widths, LEVELS)?;
        let rest = rest_of(alloc, pairs, &widths)?;
        Ok(UnitTable { rows, rest })
    }

    /// The values of a level that stand side by side.
    fn row(&self, level: u32) -> &[Option<V>]
        ensures value { result.now ≡ row_at self.now level }
    {
        match self.rows.get(level as usize) {
            Some(row) => row,
            None => &[],
        }
    }

    /// What stands in the place of a unit of a level, where there is one.
    fn entry(&self, level: u32, unit: u32) -> Option<Option<V>>
        ensures value { result ≡ slice_get (row_at self.now level) unit }
    {
        self.row(level).get(unit as usize).copied()
    }

    /// The value of a unit of a level, where it has one.
    pub fn of(&self, level: u32, unit: u32) -> Option<V>
        ensures value { result ≡ value_of self.now (level, unit) }
    {
        match self.entry(level, unit) {
            Some(value) => value,
            None => self.rest.get(&(level, unit)).copied(),
        }
    }

    /// Whether a unit of a level has a value.
    pub fn has(&self, level: u32, unit: u32) -> bool
        ensures value { result ≡ has_unit self.now (level, unit) }
    {
        self.of(level, unit).is_some()
    }
}
