//! That tables which load for a run load for each part of it, as functions with an empty body.
//! The rules: docs/REFUSALS.md, "Order"; docs/CHECKS.md.
ghost use Rattle.std.specs.Prelude.{◌≡◌, ◌≤◌, ℕ, Ok};
ghost use Rattle.kt_checks.specs.Checks.{IsValid, KeepsSamples};
ghost use Rattle.kt_keys.specs.declared.need.Need.{Need};
ghost use Rattle.kt_load.specs.Loaded.{loaded};
ghost use Rattle.kt_out.specs.NamedFiles.{FileMap};
ghost use Rattle.kt_rec.specs.Rows.{Rows};
ghost use Rattle.kt_subset.specs.Loading.{LoadsSame};
ghost use Rattle.kt_subset.specs.SameRows.{HasSame};
ghost use Rattle.kt_subset.specs.Within.{IsWithin};

/// Where the tables of a need load, those of each need that lies within it load too, with the same rows.
pub fn tables_load_for_less()
    ensures { (files : FileMap) (small big : Need) (rows : Rows) → IsWithin small big → loaded files big ≡ Ok rows → LoadsSame files small rows }
{}

/// Where no check refuses the tables of a need, none refuses the same rows for a need that lies within it: neither when they are
/// loaded, nor for a number of samples at the header of a stream.
pub fn checks_refuse_no_more_for_less()
    ensures valid { (rows other : Rows) (small big : Need) → IsWithin small big → HasSame small rows other → IsValid other big → IsValid rows small }
    ensures samples { (rows other : Rows) (small big : Need) → IsWithin small big → HasSame small rows other → (samples : ℕ) → KeepsSamples other big samples → KeepsSamples rows small samples }
    ensures known { (rows : Rows) (need : Need) → 1 ≤ need.samples → IsValid rows need → KeepsSamples rows need need.samples }
{}
