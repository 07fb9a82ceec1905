//! The laws of the place of a table among the rows, as a function with an empty body.
//! The rules: docs/TABLES.md, "Tables", "Files".
ghost use Rattle.std.specs.Prelude.{◌≡◌, ◌<◌, ℕ};
ghost use Rattle.kt_rec.specs.PlaceLaws.{AreApart, AreTen};
ghost use Rattle.kt_rec.specs.Places.{PartOf, part_in, table_at, with_part};
ghost use Rattle.kt_rec.specs.Rows.{Rows};
ghost use Rattle.kt_rec.specs.TableNames.{IsTableId};
ghost use Rattle.kt_rec.specs.declared.table.Table.{Table};

/// What is put in the place of a table is got there, every other table stays, and of what is put twice the last is there.
pub fn places_hold()
    ensures got { (t : Table) (stage : ℕ) (part : PartOf t) (rows : Rows) → AreTen rows → stage < 10 → part_in t stage (with_part t stage part rows) ≡ part }
    ensures others { (t : Table) (stage : ℕ) (u : Table) (at : ℕ) (part : PartOf u) (rows : Rows) → IsTableId (table_at stage t) → IsTableId (table_at at u) → AreApart stage t at u → part_in t stage (with_part u at part rows) ≡ part_in t stage rows }
    ensures twice { (t : Table) (stage : ℕ) (first last : PartOf t) (rows : Rows) → AreTen rows → stage < 10 → with_part t stage last (with_part t stage first rows) ≡ with_part t stage last rows }
{}
