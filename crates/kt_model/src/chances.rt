//! The chances of the damage bins of one areaperil and vulnerability.
//! The rules: docs/CALCULATION.md, "Damage distribution".
ghost use Rattle.std.specs.Prelude.{◌≡◌, ℕ, ◌+◌, ◌-◌, ◌*◌, ◌<◌, ◌≤◌, cond, nat_eq, length, slice_index, All, IfOk, ◌^◌};
ghost use Rattle.std.specs.List.{filter, sum, sum_by};
ghost use Rattle.std.specs.List.Sorted.{IsNonDecreasingBy};
ghost use Rattle.kt_tables.specs.Kept.{damage_key};
ghost use Rattle.kt_tables.specs.DamageLaws.{KeepsDamage};
ghost use Rattle.kt_tables.specs.Lookups.{damages_at};
ghost use Rattle.kt_model.specs.Scratch.{chance_at, chance_in};

use crate::scratch::PLACES;
use kt_rec::{FootRow, Vulnerability};
use kt_tables::Portfolio;

/// Sets all chances to 0.
pub(crate) fn clear(chances: &mut [u64])
    ensures none { sum chances.new ≡ 0 }
{
    for chance in chances.iter_mut() {
        *chance = 0;
    }
}

/// Adds the damage at an intensity that has a probability.
fn add_damages(chances: &mut [u64], damages: &[Vulnerability], prob: u32)
    requires bins { All (λ row. (1 ≤ row.damage_bin_id) × (row.damage_bin_id ≤ length chances.old)) damages.now }
    requires fits { sum chances.old + prob * sum_by (λ row. row.prob) damages.now ≤ 1002001000000 }
    ensures each { (bin : ℕ) → bin < length chances.old → slice_index chances.new bin ≡ slice_index chances.old bin + chance_at damages.now prob (bin + 1) }
    ensures total { sum chances.new ≡ sum chances.old + prob * sum_by (λ row. row.prob) damages.now }
{
    for damage in damages {
        chances[damage.damage_bin_id as usize - 1] += u64::from(prob) * u64::from(damage.prob);
    }
}

/// Where to keep the place of the damage of a vulnerability at an intensity. No contract speaks of the places kept there: what is
/// found at one is tested.
fn slot_of(vulnerability: u32, intensity: u32) -> usize
    ensures { result < 512 }
{
    (vulnerability as usize * 32 + intensity as usize) % PLACES
}

/// Adds the damage of a vulnerability in the rows of one areaperil to chances that are all 0.
pub(crate) fn add_rows(
    chances: &mut [u64],
    places: &mut [usize],
    portfolio: &Portfolio,
    rows: &[FootRow],
    vulnerability: u32,
)
    requires kept { KeepsDamage portfolio.now.rows }
    requires bins { length chances.old ≡ length portfolio.now.rows.damage_bin_dict }
    requires none { sum chances.old ≡ 0 }
    requires places { length places.old ≡ 512 }
    requires within { sum_by (λ row. row.prob) rows.now ≤ 1001000 }
    ensures each { (bin : ℕ) → bin < length chances.old → slice_index chances.new bin ≡ chance_in portfolio.now.rows rows.now vulnerability (bin + 1) }
    ensures total { sum chances.new ≤ 1002001000000 }
{
    for row in rows {
        let slot = slot_of(vulnerability, row.intensity);
        let mut place = places[slot];
        let here = portfolio.damages_near(vulnerability, row.intensity, &mut place);
        places[slot] = place;
        add_damages(chances, here, row.prob);
    }
}
