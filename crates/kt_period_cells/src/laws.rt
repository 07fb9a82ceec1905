//! Theorems about cells, as functions that do nothing.
//! The rules: docs/CALCULATION.md, "Periods"; docs/LIMITS.md, "Cells".
ghost use Rattle.std.specs.Prelude.{◌≡◌, List, length};
ghost use Rattle.kt_rec.specs.declared.perspective.CellKey.{CellKey};
ghost use Rattle.kt_period_cells.specs.CellKeys.{AreCellKeys};
ghost use Rattle.kt_cell.specs.Losses.{KeyLoss, cell_count};

/// The cells that are counted against their limit are the keys with a total above 0: these can be listed, each once, and however they
/// are listed, the count is how many they are.
pub fn cells_are_the_keys_with_a_total()
    ensures listed { (losses : List KeyLoss) → (keys : List CellKey) × AreCellKeys losses keys }
    ensures count { (losses : List KeyLoss) (keys : List CellKey) → AreCellKeys losses keys → cell_count losses ≡ length keys }
{}
