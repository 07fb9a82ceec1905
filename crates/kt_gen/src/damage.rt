//! The vulnerabilities and the damage bins of a generated set.
//! The rules: docs/GENERATOR.md, "Damage".
ghost use Rattle.std.specs.Prelude.{◌≡◌, ◌≤◌, IfOk};
ghost use Rattle.kt_rec.specs.declared.table.Table.TheVariants.{DamageBinDict, Vulnerability};
ghost use Rattle.kt_schema.specs.Conversions.{bin};
ghost use Rattle.kt_gen.specs.Damage.{damage_bin_rows, vulnerability_rows};

use crate::draws::Draws;
use crate::groups::{Groups, begin, push_rows, put_plain_groups};
use kt_money::Bytes;
use kt_rec::Table;
use kt_schema::{DAMAGE_BIN_DICT, VULNERABILITY};
use std::alloc::{AllocError, Global};

/// The intensities of a vulnerability.
#[derive(Clone, Copy)]
struct IntensityGroups {
    vulnerability: u32,
    ghost few: { vulnerability ≤ 20000 },
}

impl Groups for IntensityGroups {
    ghost use Rattle.kt_rec.specs.declared.table.Table.TheVariants.{Vulnerability};
    ghost use Rattle.kt_schema.specs.Tables.{kinds_of};
    ghost use Rattle.kt_gen.specs.Damage.{damage_rows};

    ghost kinds = { kinds_of Vulnerability };

    ghost rows = { λ intensities _ intensity. damage_rows intensities.vulnerability intensity };

    ghost before = { λ _ _. 0 };

    fn put(&self, number: u32, _draws: &mut Draws, out: &mut Bytes) -> Result<(), AllocError> {
        let vulnerability = u64::from(self.vulnerability);
        let intensity = u64::from(number);
        let risen = 50_000 * intensity;
        let total = 10_000 * vulnerability;
        push_rows(
            out,
            VULNERABILITY.kinds,
            &[
                [
                    vulnerability,
                    intensity,
                    1,
                    600_000u64.saturating_sub(risen),
                ],
                [
                    vulnerability,
                    intensity,
                    intensity + 1,
                    (400_000 + risen).saturating_sub(total),
                ],
                [vulnerability, intensity, 12, total],
            ],
        )
    }
}

/// The vulnerabilities.
#[derive(Clone, Copy)]
struct VulnerabilityGroups;

impl Groups for VulnerabilityGroups {
    ghost use Rattle.kt_rec.specs.declared.table.Table.TheVariants.{Vulnerability};
    ghost use Rattle.kt_schema.specs.Tables.{kinds_of};
    ghost use Rattle.kt_gen.specs.Damage.{intensity_damage_rows};

    ghost kinds = { kinds_of Vulnerability };

    ghost rows = { λ _ _ vulnerability. intensity_damage_rows vulnerability };

    ghost before = { λ _ _. 0 };

    #[tactic(auto, unfolding(crate::specs::Damage::intensity_damage_rows))]
    fn put(&self, number: u32, _draws: &mut Draws, out: &mut Bytes) -> Result<(), AllocError> {
        let intensities = IntensityGroups {
            vulnerability: number,
        };
        put_plain_groups(&intensities, 1, 10, out)
    }
}

/// The damage bins between no damage and total loss.
#[derive(Clone, Copy)]
struct DamageBinGroups;

impl Groups for DamageBinGroups {
    ghost use Rattle.std.specs.Prelude.{[], ◌∷◌};
    ghost use Rattle.kt_rec.specs.declared.table.Table.TheVariants.{DamageBinDict};
    ghost use Rattle.kt_schema.specs.Tables.{kinds_of};
    ghost use Rattle.kt_gen.specs.Damage.{damage_bin_row};

    ghost kinds = { kinds_of DamageBinDict };

    ghost rows = { λ _ _ bin. damage_bin_row bin ∷ [] };

    ghost before = { λ _ _. 0 };

    fn put(&self, number: u32, _draws: &mut Draws, out: &mut Bytes) -> Result<(), AllocError> {
        let bin = u64::from(number);
        let from = 100_000 * bin.saturating_sub(2);
        push_rows(
            out,
            DAMAGE_BIN_DICT.kinds,
            &[[bin, from, 100_000 * (bin - 1), from + 50_000, 1]],
        )
    }
}

/// The file of the vulnerabilities.
#[tactic(auto, unfolding(crate::specs::Damage::vulnerability_rows))]
pub(crate) fn vulnerability_file(alloc: Global) -> Result<Bytes, AllocError>
    ensures { IfOk result (λ file. file ≡ bin Vulnerability 0 vulnerability_rows) }
{
    let mut out = begin(alloc, Table::Vulnerability, 0)?;
    put_plain_groups(&VulnerabilityGroups, 1, 3, &mut out)?;
    Ok(out)
}

/// The file of the damage bins.
pub(crate) fn damage_bins_file(alloc: Global) -> Result<Bytes, AllocError>
    ensures { IfOk result (λ file. file ≡ bin DamageBinDict 0 damage_bin_rows) }
{
    let mut out = begin(alloc, Table::DamageBinDict, 0)?;
    let kinds = DAMAGE_BIN_DICT.kinds;
    push_rows(&mut out, kinds, &[[1, 0, 0, 0, 1]])?;
    put_plain_groups(&DamageBinGroups, 2, 10, &mut out)?;
    push_rows(&mut out, kinds, &[[12, 1_000_000, 1_000_000, 1_000_000, 1]])?;
    Ok(out)
}
