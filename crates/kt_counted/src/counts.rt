//! How many lines and bytes a text has.
//! The rules: docs/GENERATOR.md, "What is shown of a run".
ghost use Rattle.std.specs.Prelude.{◌≡◌, ◌≤◌, ◌++◌, ◌^◌, List, ℕ, [], length, MatchOption};
ghost use Rattle.kt_counted.specs.Counts.{counts_of, line_count};

/// How many lines and bytes a text has.
#[derive(Clone, Copy)]
pub struct Counts {
    /// How often it has the byte LF.
    pub lines: u64,
    /// Its length.
    pub bytes: u64,
}

impl Counts {
    /// Those of no text.
    pub(crate) fn new() -> Self
        ensures { result ≡ counts_of [] }
    {
        Counts { lines: 0, bytes: 0 }
    }

    /// Those of the text of these counts with a piece behind it, or `None` where its length is no `u64`.
    pub(crate) fn and(self, piece: &[u8]) -> Option<Self>
        ensures { (text : List ℕ) → self ≡ counts_of text → MatchOption result (2 ^ 64 ≤ length (text ++ piece.now)) (λ counts. counts ≡ counts_of (text ++ piece.now)) }
    {
        Some(Counts {
            lines: self.lines.checked_add(line_count(piece) as u64)?,
            bytes: self.bytes.checked_add(piece.len() as u64)?,
        })
    }
}

/// How many lines a text has.
fn line_count(text: &[u8]) -> usize
    ensures { result ≡ line_count text.now }
{
    text.iter().filter(|byte| **byte == b'\n').count()
}
