//! What a list of files gains: a text for each file, in pieces, so that a long text is not held whole.
//! The rule: docs/OUTPUTS.md, "Files of a run".

use kt_money::{Bytes, OutOfMemory};

/// A text for each file of a list, in pieces, each of which can be made without those before it.
pub trait Texts<F> {
    ghost use Rattle.std.specs.Prelude.{◌≡◌, ◌++◌, ℕ, List, [], length, slice_index_or, OnOk, OnErr};
    ghost use Rattle.kt_stream.specs.Write.{BeginsWith};

    /// What tells the texts, as a list of records of which a value keeps the sums alone.
    ghost Start: { Type 0 };

    /// Whether the texts are those of this.
    ghost are_of: { Start → Self → Type 0 };

    /// The pieces of the text that a file gains, in their order.
    ghost pieces_of: { Start → Self → F → List (List ℕ) };

    /// How many pieces the text of a file has.
    fn pieces(&self, file: &F) -> usize
        ensures { (start : Start) → are_of start self.now → result ≡ length (pieces_of start self.now file.now) };

    /// Appends a piece of the text of a file, counted from 0; behind the last one a piece is nothing. The error is want of memory;
    /// then some of the piece may stand behind what was there.
    fn push(&self, file: &F, piece: usize, out: &mut Bytes) -> Result<(), OutOfMemory>
        ensures ok { (start : Start) → are_of start self.now → OnOk result (out.new ≡ out.old ++ slice_index_or (pieces_of start self.now file.now) piece []) }

        ensures kept { OnErr result (BeginsWith out.old out.new) };
}
