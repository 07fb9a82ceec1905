//! The fold of a run, beside the rows that were made with its parts.
//! The rules: docs/ARCHITECTURE.md, "A run of all stages".
ghost use Rattle.std.specs.Prelude.{◌≡◌, []};

use kt_files::FileRows;
use kt_fold::{FoldStop, ReadyPart, RunFold};
use kt_part::Fold;
use kt_stream::Records;
use std::mem::{forget, replace};

/// A part of a round with the rows that it adds to the files: the worker that makes the part makes them too, while its records are at hand.
#[derive(Drop)]
pub(crate) struct TextPart {
    /// The part.
    pub(crate) part: ReadyPart,
    /// The rows that it adds to files.
    pub(crate) made: Records<FileRows>,
}

/// The fold of a run, and for each part that it keeps, from the first on, the rows that were made with it.
#[derive(Drop)]
pub(crate) struct TextFold<'a> {
    /// The fold.
    pub(crate) inner: RunFold<'a>,
    /// The rows of the first parts that are kept, part by part.
    pub(crate) made: Vec<Records<FileRows>>,
}

impl<'a> TextFold<'a> {
    /// Says that its cells are of the periods of its tables.
    pub(crate) fn keeps_periods(&self)
        ensures { self.now.inner.cells.periods ≡ self.now.inner.rows.periods }
    {
        let _ = self.inner.samples();
    }

    /// Keeps no part any more. The memory of those of the last round is not given back: what comes then is the end of the process.
    pub(crate) fn let_go(&mut self, is_last: bool)
        ensures fold { self.new.inner ≡ record self.old.inner { kept = [] } }
        ensures made { self.new.made.items ≡ [] }
    {
        self.inner.let_go(is_last);
        let made = replace(&mut self.made, Vec::new(self.inner.cells().alloc()));
        if is_last {
            forget(made);
        }
    }
}

impl<'a> Fold<TextPart> for TextFold<'a> {
    ghost use Rattle.kt_fold.specs.Folds.{FoldStart};
    ghost use Rattle.kt_chain.specs.TextFolds.{FitsTexts, TextsStand, TextsStop};

    type Stop = FoldStop;

    ghost Start = { FoldStart };

    ghost stands = { TextsStand };

    ghost stopped = { TextsStop };

    ghost fits = { FitsTexts };

    fn take(&mut self, k: u32, block: TextPart) -> Result<(), FoldStop> {
        let TextPart { part, made } = block;
        self.inner.take(k, part)?;
        if self.made.push(made).is_err() {
            return Err(FoldStop::OutOfMemory);
        }
        Ok(())
    }
}
