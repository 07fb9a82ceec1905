//! The bytes of a file that is not kept. Only proofs see them: a history takes no memory, and its methods do nothing at run time.
//! The rule: docs/GENERATOR.md, "What is shown of a run".
ghost use Rattle.std.specs.Prelude.{◌≡◌, List, ℕ, [], ◌++◌};
ghost use Rattle.std.specs.Borrow.{ftrue};

use std::marker::Model;

/// The bytes of a file, which contracts read as `bytes`.
#[derive(Drop)]
pub(crate) struct History {
    pub ghost bytes: { List ℕ },
}

impl Model for History {
    ghost also_owns = { λ _. ftrue };
}

impl History {
    /// No byte.
    pub fn new() -> History
        ensures { result.bytes ≡ [] }
    {
        History {}
    }

    /// These bytes, and the piece behind them.
    pub fn and(&self, _piece: &[u8]) -> History
        ensures { result.bytes ≡ self.now.bytes ++ _piece.now }
    {
        History {}
    }
}
