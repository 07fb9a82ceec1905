//! That a table of a set depends on the records of that set alone, as functions with an empty body.
//! The rules: docs/CALCULATION.md, "Average annual loss", "Exceedance curves".
ghost use Rattle.std.specs.Prelude.{◌≡◌, ℕ, List, [], None};
ghost use Rattle.kt_rec.specs.declared.curve.Curve.{Curve};
ghost use Rattle.kt_rec.specs.declared.perspective.Perspective.{Perspective};
ghost use Rattle.kt_curve.specs.Average.{average_annual_loss_rows};
ghost use Rattle.kt_curve.specs.Exceedance.{exceedance_rows};
ghost use Rattle.kt_cell.specs.Losses.{Added, all_losses};
ghost use Rattle.kt_curve.specs.OwnLosses.{own_records};
ghost use Rattle.kt_cell.specs.Standing.{first_stop};

/// The average annual losses and the curves of a set of a perspective among the records of many are those of its own records alone,
/// also where these are told as records of another perspective.
pub fn tables_of_a_set_are_of_its_own_records()
    ensures averages { (perspective : Perspective) (set : ℕ) (other : Perspective) (periods samples : ℕ) (history : List Added) → average_annual_loss_rows perspective set periods samples (all_losses history) ≡ average_annual_loss_rows other set periods samples (all_losses (own_records perspective set other history)) }
    ensures curves { (perspective : Perspective) (set : ℕ) (other : Perspective) (curve : Curve) (periods samples : ℕ) (history : List Added) (returns : List ℕ) → exceedance_rows curve perspective set periods samples (all_losses history) returns ≡ exceedance_rows curve other set periods samples (all_losses (own_records perspective set other history)) returns }
{}

/// Where the cells refuse none of some records, they refuse none of the records of one set, added alone.
pub fn records_of_a_set_are_not_refused()
    ensures { (perspective : Perspective) (set : ℕ) (other : Perspective) (history : List Added) → first_stop [] (all_losses history) ≡ None → first_stop [] (all_losses (own_records perspective set other history)) ≡ None }
{}
