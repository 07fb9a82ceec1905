//! The financial tables of the base and of a stage.
//! The rules: docs/TABLES.md, "Tables", "Files".
ghost use Rattle.std.specs.Prelude.{◌≡◌, ◌≤◌, ◌<◌, ◌&&◌};
ghost use Rattle.kt_rec.specs.TableNames.{number_of};
ghost use Rattle.kt_rec.specs.Rows.{rows_of};
ghost use Rattle.kt_keys.specs.Refusals.{at_stage, is_loaded};
ghost use Rattle.kt_keys.specs.Keys.{programme_of, policytc_of, profile_of};

use crate::need::Need;
use kt_rec::{FmPolicytc, FmProfile, FmProgramme, Table, TableId, Tables};

/// The base and nine reinsurance stages.
pub const STAGES: u32 = 10;

/// A table of the base.
pub fn base(table: Table) -> TableId
    ensures value { result ≡ at_stage 0 table }
{
    TableId { stage: 0, table }
}

/// Whether a table of the base is loaded.
pub fn has_base(need: &Need, table: Table) -> bool
    ensures value { result ≡ is_loaded need.now 0 table }
{
    need.has(0, table)
}

/// Whether two tables of the base are loaded.
pub fn has_both(need: &Need, one: Table, other: Table) -> bool
    ensures value { result ≡ (is_loaded need.now 0 one && is_loaded need.now 0 other) }
{
    has_base(need, one) && has_base(need, other)
}

/// Whether a financial table of the base, at 0, or of a stage, 1 to 9, is loaded: the programme, the policy terms or the
/// profiles.
pub fn has_financial(need: &Need, stage: u32, table: Table) -> bool
    requires stages { stage < 10 }
    requires from { 9 ≤ number_of table }
    requires to { number_of table ≤ 11 }
    ensures value { result ≡ is_loaded need.now stage table }
{
    need.has(stage, table)
}

/// The rows of `fm_programme` of the base, at 0, or of a stage, 1 to 9.
pub fn programme(tables: &Tables, stage: u32) -> &[FmProgramme]
    requires { stage < 10 }
    ensures value { result.now ≡ programme_of (rows_of tables.now) stage }
{
    tables.financial[stage as usize].programme.as_slice()
}

/// The rows of `fm_policytc` of the base, at 0, or of a stage, 1 to 9.
pub fn policytc(tables: &Tables, stage: u32) -> &[FmPolicytc]
    requires { stage < 10 }
    ensures value { result.now ≡ policytc_of (rows_of tables.now) stage }
{
    tables.financial[stage as usize].policytc.as_slice()
}

/// The rows of `fm_profile` of the base, at 0, or of a stage, 1 to 9.
pub fn profile(tables: &Tables, stage: u32) -> &[FmProfile]
    requires { stage < 10 }
    ensures value { result.now ≡ profile_of (rows_of tables.now) stage }
{
    tables.financial[stage as usize].profile.as_slice()
}
