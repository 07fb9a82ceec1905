//! Theorems about the tree of the tables of a programme, as functions with an empty body.
//! The rules: docs/FINANCIAL_MODULE.md, "Levels"; docs/CHECKS.md, "Outputs for every layer".
ghost use Rattle.std.specs.Prelude.{◌≡◌, ℕ};
ghost use Rattle.kt_rec.specs.Rows.{Rows};
ghost use Rattle.kt_checks.specs.KeptChecks.{KeepsOutputs};
ghost use Rattle.kt_fmtree.specs.Programme.{tree_of};
ghost use Rattle.kt_fmtree.specs.Tree.{IsTree};
ghost use Rattle.kt_structure.specs.OutputLaws.{HasOutputs};
ghost use Rattle.kt_structure.specs.ProgrammeLaws.{HasTree};

/// Where the rows of a programme are right, they make a tree that hangs together.
pub fn right_rows_make_a_tree()
    ensures { (rows : Rows) (stage : ℕ) → HasTree rows stage → IsTree (tree_of rows stage) }
{}

/// Where an output stands for each layer by the rows of the tables, as check 16 has it, one stands for each layer of the tree.
pub fn each_layer_has_an_output()
    ensures { (rows : Rows) (rule : ℕ) → KeepsOutputs rows rule → HasOutputs rows rule }
{}
