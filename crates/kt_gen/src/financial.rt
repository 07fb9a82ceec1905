//! The insurance of a generated set: its programme, terms, profiles and outputs.
//! The rules: docs/GENERATOR.md, "Insurance".
ghost use Rattle.std.specs.Prelude.{◌≡◌, ◌≤◌, IfOk};
ghost use Rattle.kt_rec.specs.declared.table.Table.TheVariants.{FmPolicytc, FmProfile, FmProgramme, FmXref};
ghost use Rattle.kt_schema.specs.Conversions.{bin};
ghost use Rattle.kt_gen.specs.Financial.{fm_policytc_rows, fm_profile_rows, fm_programme_rows, fm_xref_rows, top_of};

use crate::draws::Draws;
use crate::exposure::coverage_of;
use crate::groups::{Groups, begin, push_rows, put_plain_groups};
use kt_money::Bytes;
use kt_rec::Table;
use kt_schema::{FM_POLICYTC, FM_PROFILE, FM_PROGRAMME, FM_XREF};
use std::alloc::{AllocError, Global};

/// The unit of the second level that a coverage is added to.
fn top_of(coverage: u32) -> u32
    requires { 1 ≤ coverage }
    ensures { result ≡ top_of coverage }
{
    1 + (coverage - 1) / 10
}

/// The rows of the programme's first level.
#[derive(Clone, Copy)]
struct ItemProgrammeGroups;

impl Groups for ItemProgrammeGroups {
    ghost use Rattle.std.specs.Prelude.{[], ◌∷◌};
    ghost use Rattle.kt_rec.specs.declared.table.Table.TheVariants.{FmProgramme};
    ghost use Rattle.kt_schema.specs.Tables.{kinds_of};
    ghost use Rattle.kt_gen.specs.Financial.{item_programme_row};

    ghost kinds = { kinds_of FmProgramme };

    ghost rows = { λ _ _ item. item_programme_row item ∷ [] };

    ghost before = { λ _ _. 0 };

    fn put(&self, number: u32, _draws: &mut Draws, out: &mut Bytes) -> Result<(), AllocError> {
        let coverage = u64::from(coverage_of(number));
        push_rows(out, FM_PROGRAMME.kinds, &[[u64::from(number), 1, coverage]])
    }
}

/// Those of its second level.
#[derive(Clone, Copy)]
struct CoverageProgrammeGroups;

impl Groups for CoverageProgrammeGroups {
    ghost use Rattle.std.specs.Prelude.{[], ◌∷◌};
    ghost use Rattle.kt_rec.specs.declared.table.Table.TheVariants.{FmProgramme};
    ghost use Rattle.kt_schema.specs.Tables.{kinds_of};
    ghost use Rattle.kt_gen.specs.Financial.{coverage_programme_row};

    ghost kinds = { kinds_of FmProgramme };

    ghost rows = { λ _ _ coverage. coverage_programme_row coverage ∷ [] };

    ghost before = { λ _ _. 0 };

    fn put(&self, number: u32, _draws: &mut Draws, out: &mut Bytes) -> Result<(), AllocError> {
        let top = u64::from(top_of(number));
        push_rows(out, FM_PROGRAMME.kinds, &[[u64::from(number), 2, top]])
    }
}

/// The terms of coverages.
#[derive(Clone, Copy)]
struct CoverageTermsGroups;

impl Groups for CoverageTermsGroups {
    ghost use Rattle.std.specs.Prelude.{[], ◌∷◌};
    ghost use Rattle.kt_rec.specs.declared.table.Table.TheVariants.{FmPolicytc};
    ghost use Rattle.kt_schema.specs.Tables.{kinds_of};
    ghost use Rattle.kt_gen.specs.Financial.{coverage_terms_row};

    ghost kinds = { kinds_of FmPolicytc };

    ghost rows = { λ _ _ coverage. coverage_terms_row coverage ∷ [] };

    ghost before = { λ _ _. 0 };

    fn put(&self, number: u32, _draws: &mut Draws, out: &mut Bytes) -> Result<(), AllocError> {
        push_rows(out, FM_POLICYTC.kinds, &[[1, 1, u64::from(number), 1]])
    }
}

/// The terms of the units of the second level.
#[derive(Clone, Copy)]
struct TopTermsGroups;

impl Groups for TopTermsGroups {
    ghost use Rattle.kt_rec.specs.declared.table.Table.TheVariants.{FmPolicytc};
    ghost use Rattle.kt_schema.specs.Tables.{kinds_of};
    ghost use Rattle.kt_gen.specs.Financial.{top_terms_rows};

    ghost kinds = { kinds_of FmPolicytc };

    ghost rows = { λ _ _ top. top_terms_rows top };

    ghost before = { λ _ _. 0 };

    fn put(&self, number: u32, _draws: &mut Draws, out: &mut Bytes) -> Result<(), AllocError> {
        let top = u64::from(number);
        push_rows(out, FM_POLICYTC.kinds, &[[1, 2, top, 2], [2, 2, top, 3]])
    }
}

/// The outputs of items.
#[derive(Clone, Copy)]
struct OutputGroups;

impl Groups for OutputGroups {
    ghost use Rattle.kt_rec.specs.declared.table.Table.TheVariants.{FmXref};
    ghost use Rattle.kt_schema.specs.Tables.{kinds_of};
    ghost use Rattle.kt_gen.specs.Financial.{output_rows};

    ghost kinds = { kinds_of FmXref };

    ghost rows = { λ _ _ item. output_rows item };

    ghost before = { λ _ _. 0 };

    fn put(&self, number: u32, _draws: &mut Draws, out: &mut Bytes) -> Result<(), AllocError> {
        let item = u64::from(number);
        let earlier = 2 * (item - 1);
        push_rows(
            out,
            FM_XREF.kinds,
            &[[earlier + 1, item, 1], [earlier + 2, item, 2]],
        )
    }
}

/// The file of the programme.
pub(crate) fn fm_programme_file(alloc: Global, items: u32) -> Result<Bytes, AllocError>
    requires { items ≤ 9000 }
    ensures { IfOk result (λ file. file ≡ bin FmProgramme 0 (fm_programme_rows items)) }
{
    let mut out = begin(alloc, Table::FmProgramme, 0)?;
    put_plain_groups(&ItemProgrammeGroups, 1, items, &mut out)?;
    put_plain_groups(&CoverageProgrammeGroups, 1, coverage_of(items), &mut out)?;
    Ok(out)
}

/// The file of the terms.
pub(crate) fn fm_policytc_file(alloc: Global, items: u32) -> Result<Bytes, AllocError>
    requires low { 1 ≤ items }
    requires high { items ≤ 9000 }
    ensures { IfOk result (λ file. file ≡ bin FmPolicytc 0 (fm_policytc_rows items)) }
{
    let coverages = coverage_of(items);
    let mut out = begin(alloc, Table::FmPolicytc, 0)?;
    put_plain_groups(&CoverageTermsGroups, 1, coverages, &mut out)?;
    put_plain_groups(&TopTermsGroups, 1, top_of(coverages), &mut out)?;
    Ok(out)
}

/// The file of the profiles.
#[tactic(auto, unfolding(crate::specs::Financial::fm_profile_rows))]
pub(crate) fn fm_profile_file(alloc: Global) -> Result<Bytes, AllocError>
    ensures { IfOk result (λ file. file ≡ bin FmProfile 0 fm_profile_rows) }
{
    let mut out = begin(alloc, Table::FmProfile, 0)?;
    push_rows(
        &mut out,
        FM_PROFILE.kinds,
        &[
            [1, 12, 100_000, 0, 0, 0, 0, 0, 0, 0],
            [2, 2, 0, 0, 0, 0, 50_000_000, 1_000_000, 0, 0],
            [3, 2, 0, 0, 0, 50_000_000, 200_000_000, 500_000, 0, 0],
        ],
    )?;
    Ok(out)
}

/// The file of the outputs.
#[tactic(auto, unfolding(crate::specs::Financial::fm_xref_rows))]
pub(crate) fn fm_xref_file(alloc: Global, items: u32) -> Result<Bytes, AllocError>
    requires { items ≤ 9000 }
    ensures { IfOk result (λ file. file ≡ bin FmXref 0 (fm_xref_rows items)) }
{
    let mut out = begin(alloc, Table::FmXref, 0)?;
    put_plain_groups(&OutputGroups, 1, items, &mut out)?;
    Ok(out)
}
