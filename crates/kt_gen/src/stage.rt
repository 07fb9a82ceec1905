//! The reinsurance stage of a generated set.
//! The rules: docs/GENERATOR.md, "Reinsurance".
ghost use Rattle.std.specs.Prelude.{◌≡◌, ◌≤◌, IfOk};
ghost use Rattle.kt_rec.specs.declared.table.Table.TheVariants.{FmPolicytc, FmProfile, FmProgramme};
ghost use Rattle.kt_schema.specs.Conversions.{bin};
ghost use Rattle.kt_gen.specs.Stage.{stage_policytc_rows, stage_profile_rows, stage_programme_rows};

use crate::draws::Draws;
use crate::groups::{Groups, begin, push_rows, put_plain_groups};
use kt_money::Bytes;
use kt_rec::Table;
use kt_schema::{FM_POLICYTC, FM_PROFILE, FM_PROGRAMME};
use std::alloc::{AllocError, Global};

/// The rows of the stage's programme.
#[derive(Clone, Copy)]
struct StageProgrammeGroups;

impl Groups for StageProgrammeGroups {
    ghost use Rattle.std.specs.Prelude.{[], ◌∷◌};
    ghost use Rattle.kt_rec.specs.declared.table.Table.TheVariants.{FmProgramme};
    ghost use Rattle.kt_schema.specs.Tables.{kinds_of};
    ghost use Rattle.kt_gen.specs.Stage.{stage_programme_row};

    ghost kinds = { kinds_of FmProgramme };

    ghost rows = { λ _ _ output. stage_programme_row output ∷ [] };

    ghost before = { λ _ _. 0 };

    fn put(&self, number: u32, _draws: &mut Draws, out: &mut Bytes) -> Result<(), AllocError> {
        push_rows(out, FM_PROGRAMME.kinds, &[[u64::from(number), 1, 1]])
    }
}

/// The file of the stage's programme.
#[tactic(auto, unfolding(crate::specs::Stage::stage_programme_rows))]
pub(crate) fn stage_programme_file(alloc: Global, items: u32) -> Result<Bytes, AllocError>
    requires { items ≤ 9000 }
    ensures { IfOk result (λ file. file ≡ bin FmProgramme 0 (stage_programme_rows items)) }
{
    let mut out = begin(alloc, Table::FmProgramme, 0)?;
    put_plain_groups(&StageProgrammeGroups, 1, 2 * items, &mut out)?;
    Ok(out)
}

/// The file of the stage's terms.
#[tactic(auto, unfolding(crate::specs::Stage::stage_policytc_rows))]
pub(crate) fn stage_policytc_file(alloc: Global) -> Result<Bytes, AllocError>
    ensures { IfOk result (λ file. file ≡ bin FmPolicytc 0 stage_policytc_rows) }
{
    let mut out = begin(alloc, Table::FmPolicytc, 0)?;
    push_rows(&mut out, FM_POLICYTC.kinds, &[[1, 1, 1, 1]])?;
    Ok(out)
}

/// The file of the stage's profiles.
#[tactic(auto, unfolding(crate::specs::Stage::stage_profile_rows))]
pub(crate) fn stage_profile_file(alloc: Global) -> Result<Bytes, AllocError>
    ensures { IfOk result (λ file. file ≡ bin FmProfile 0 stage_profile_rows) }
{
    let mut out = begin(alloc, Table::FmProfile, 0)?;
    push_rows(
        &mut out,
        FM_PROFILE.kinds,
        &[[1, 2, 0, 0, 0, 100_000_000, 1_000_000_000, 750_000, 0, 0]],
    )?;
    Ok(out)
}
