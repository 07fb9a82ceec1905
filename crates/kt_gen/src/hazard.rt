//! The footprint and its index, and the random numbers of a generated set.
//! The rules: docs/GENERATOR.md, "Hazard".
ghost use Rattle.std.specs.Prelude.{◌≡◌, ◌≤◌, ◌+◌, ◌*◌, ℕ, IfOk};
ghost use Rattle.kt_rec.specs.declared.table.Table.TheVariants.{Footprint, FootprintIdx, Random};
ghost use Rattle.kt_schema.specs.Conversions.{bin};
ghost use Rattle.kt_schema.specs.Index.{index_of};
ghost use Rattle.kt_gen.specs.Hazard.{footprint_rows, random_rows};

use crate::draws::Draws;
use crate::groups::{Groups, begin, push_rows, put_groups, put_plain_groups};
use kt_money::Bytes;
use kt_rec::Table;
use kt_schema::{FOOTPRINT_IDX, FOOTPRINT_RECORD, RANDOM};
use std::alloc::{AllocError, Global};

/// The strikes of an event, behind so many draws before all events.
#[derive(Clone, Copy)]
struct StrikeGroups {
    before: u32,
    event: u32,
    ghost few: { before ≤ 20000 },
    ghost low: { 1 ≤ event },
    ghost high: { event ≤ 20000 },
}

impl Groups for StrikeGroups {
    ghost use Rattle.std.specs.Prelude.{◌-◌, drop, map};
    ghost use Rattle.kt_rec.specs.declared.table.Table.TheVariants.{Footprint};
    ghost use Rattle.kt_schema.specs.Tables.{kinds_of};
    ghost use Rattle.kt_gen.specs.Hazard.{strike_rows};

    ghost kinds = { drop 1 (kinds_of Footprint) };

    ghost rows = { λ strikes seed strike. map (drop 1) (strike_rows seed strikes.before strikes.event strike) };

    ghost before = { λ strikes strike. strikes.before + (strikes.event - 1) * 10 + (strike - 1) };

    fn put(&self, number: u32, draws: &mut Draws, out: &mut Bytes) -> Result<(), AllocError> {
        let event = u64::from(self.event);
        let strike = u64::from(number);
        let areaperil = 1 + (event * 7 + (strike - 1) * 5) % 50;
        let intensity = 1 + u64::from(draws.next(9));
        push_rows(
            out,
            &FOOTPRINT_RECORD,
            &[
                [areaperil, intensity, 600_000],
                [areaperil, intensity + 1, 400_000],
            ],
        )
    }
}

/// The events of a footprint, behind so many draws.
#[derive(Clone, Copy)]
struct FootprintGroups {
    before: u32,
    ghost few: { before ≤ 20000 },
}

impl Groups for FootprintGroups {
    ghost use Rattle.std.specs.Prelude.{◌-◌, drop, map};
    ghost use Rattle.kt_rec.specs.declared.table.Table.TheVariants.{Footprint};
    ghost use Rattle.kt_schema.specs.Tables.{kinds_of};
    ghost use Rattle.kt_gen.specs.Hazard.{struck_rows};

    ghost kinds = { drop 1 (kinds_of Footprint) };

    ghost rows = { λ events seed event. map (drop 1) (struck_rows seed events.before event) };

    ghost before = { λ events event. events.before + (event - 1) * 10 };

    fn put(&self, number: u32, draws: &mut Draws, out: &mut Bytes) -> Result<(), AllocError> {
        let strikes = StrikeGroups {
            before: self.before,
            event: number,
        };
        put_groups(&strikes, 1, 10, draws, out)
    }
}

/// The index of a footprint.
#[derive(Clone, Copy)]
struct IndexGroups;

impl Groups for IndexGroups {
    ghost use Rattle.std.specs.Prelude.{[], ◌∷◌};
    ghost use Rattle.kt_rec.specs.declared.table.Table.TheVariants.{FootprintIdx};
    ghost use Rattle.kt_schema.specs.Tables.{kinds_of};
    ghost use Rattle.kt_gen.specs.Hazard.{event_index_row};

    ghost kinds = { kinds_of FootprintIdx };

    ghost rows = { λ _ _ event. event_index_row event ∷ [] };

    ghost before = { λ _ _. 0 };

    fn put(&self, number: u32, _draws: &mut Draws, out: &mut Bytes) -> Result<(), AllocError> {
        let event = u64::from(number);
        push_rows(
            out,
            FOOTPRINT_IDX.kinds,
            &[[event, 16 + (event - 1) * 240, 240]],
        )
    }
}

/// Random numbers, behind so many draws.
#[derive(Clone, Copy)]
struct RandomGroups {
    before: u32,
    ghost few: { before ≤ 200000 },
}

impl Groups for RandomGroups {
    ghost use Rattle.std.specs.Prelude.{[], ◌∷◌, ◌-◌};
    ghost use Rattle.kt_rec.specs.declared.table.Table.TheVariants.{Random};
    ghost use Rattle.kt_schema.specs.Tables.{kinds_of};
    ghost use Rattle.kt_gen.specs.Hazard.{random_row};

    ghost kinds = { kinds_of Random };

    ghost rows = { λ numbers seed number. random_row seed numbers.before number ∷ [] };

    ghost before = { λ numbers number. numbers.before + (number - 1) };

    fn put(&self, _number: u32, draws: &mut Draws, out: &mut Bytes) -> Result<(), AllocError> {
        push_rows(out, RANDOM.kinds, &[[u64::from(draws.next(1_000_000))]])
    }
}

/// The file of the footprint.
#[tactic(auto, unfolding(crate::specs::Hazard::footprint_rows))]
pub(crate) fn footprint_file(
    alloc: Global,
    events: u32,
    draws: &mut Draws,
) -> Result<Bytes, AllocError>
    requires few { events ≤ 10000 }
    requires made { draws.old.made ≤ 20000 }
    ensures value { IfOk result (λ file. file ≡ bin Footprint 0 (footprint_rows draws.old.seed draws.old.made events)) }
    ensures made { IfOk result (λ _. draws.new.made ≡ draws.old.made + events * 10) }

    ensures seed { IfOk result (λ _. draws.new.seed ≡ draws.old.seed) }
{
    let mut out = begin(alloc, Table::Footprint, 0)?;
    let groups = FootprintGroups { before: draws.made };
    put_groups(&groups, 1, events, draws, &mut out)?;
    Ok(out)
}

/// The file of the index of a footprint: that of the footprint's rows, which has a row for each event.
pub(crate) fn footprint_index_file(alloc: Global, events: u32) -> Result<Bytes, AllocError>
    requires { events ≤ 10000 }
    ensures { (seed before : ℕ) → IfOk result (λ file. file ≡ bin FootprintIdx 0 (index_of (footprint_rows seed before events))) }
{
    let mut out = begin(alloc, Table::FootprintIdx, 0)?;
    put_plain_groups(&IndexGroups, 1, events, &mut out)?;
    Ok(out)
}

/// The file of so many random numbers.
#[tactic(auto, unfolding(crate::specs::Hazard::random_rows))]
pub(crate) fn random_file(alloc: Global, count: u32, draws: &mut Draws) -> Result<Bytes, AllocError>
    requires few { count ≤ 10000 }
    requires made { draws.old.made ≤ 200000 }
    ensures value { IfOk result (λ file. file ≡ bin Random 0 (random_rows draws.old.seed draws.old.made count)) }
    ensures made { IfOk result (λ _. draws.new.made ≡ draws.old.made + count) }

    ensures seed { IfOk result (λ _. draws.new.seed ≡ draws.old.seed) }
{
    let mut out = begin(alloc, Table::Random, 0)?;
    let groups = RandomGroups { before: draws.made };
    put_groups(&groups, 1, count, draws, &mut out)?;
    Ok(out)
}
