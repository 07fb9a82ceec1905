//! What takes the rows of a table, one after the other as they are read.
//! The rule: docs/ARCHITECTURE.md, "One form for each thing".
ghost use Rattle.std.specs.Prelude.{◌≡◌, ◌++◌, ◌∷◌, [], ◌<◌, OnOk};

use crate::values::Values;
use kt_rec::Kind;
use std::alloc::AllocError;

/// What takes rows of `N` values as they are read, so that no list of the values stands between.
pub trait RowSink<const N: usize> {
    ghost use Rattle.std.specs.Prelude.{ℕ, List};
    ghost use Rattle.kt_rec.specs.declared.kind.Kind.{Kind};

    // The values that it can take as a row.
    ghost takes: { List ℕ → Type 0 };

    // What was a sink has taken rows of these values, by columns of these kinds, and is this sink now.
    ghost takes_to: { List Kind → Self → List (List ℕ) → Self → Type 0 };

    /// Takes a row, whose columns have these kinds. An error is want of memory: nothing is said of the sink then, and it is not to
    /// be used again.
    fn take(&mut self, kinds: &[Kind; N], row: &[u64; N]) -> Result<(), AllocError>
        requires size { N < 100 }
        requires fits { takes row.now }
        ensures ok { OnOk result ((start : Self) (rows : List (List ℕ)) → takes_to kinds.now start rows self.old → takes_to kinds.now start (rows ++ row.now ∷ []) self.new) };
}

impl<const N: usize> RowSink<N> for Values<N> {
    ghost use Rattle.std.specs.Prelude.{⊤};

    ghost takes = { λ _. ⊤ };

    ghost takes_to = { λ _ start rows values. values ≡ start ++ rows };

    #[inline(always)]
    fn take(&mut self, _kinds: &[Kind; N], row: &[u64; N]) -> Result<(), AllocError> {
        self.rows.push(*row)?;
        Ok(())
    }
}
