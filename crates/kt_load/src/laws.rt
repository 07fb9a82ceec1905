//! What tables are that load: a theorem, as a function with an empty body.
//! The rules: docs/REFUSALS.md, "Order"; docs/CHECKS.md.
ghost use Rattle.std.specs.Prelude.{◌≡◌, Ok};
ghost use Rattle.kt_keys.specs.declared.need.Need.{Need};
ghost use Rattle.kt_load.specs.Loaded.{loaded};
ghost use Rattle.kt_out.specs.NamedFiles.{FileMap};
ghost use Rattle.kt_rec.specs.Rows.{Rows};
ghost use Rattle.kt_tables.specs.Portfolio.{IsPortfolio};

/// The rows of tables that load are those of a portfolio, whatever the files hold: they are in the ranges of their fields, no other tables
/// have rows than those that are needed, and no check refuses them. So what every portfolio keeps, these rows keep.
pub fn rows_that_load_are_a_portfolio()
    ensures { (files : FileMap) (need : Need) (rows : Rows) → loaded files need ≡ Ok rows → IsPortfolio (record { rows = rows; need = need }) }
{}
