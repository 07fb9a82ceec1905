//! The files of the current folder may be shared by threads, where the runtime and its open files may be.
//! The rule: docs/ARCHITECTURE.md, "What threads share".
use crate::{DirInputs, DirOutputs};
use std::fs::Files;

fn is_shared<T: Send + Sync>(_: &T) {}

/// Each type once.
fn real_files_are_shared<R: Files + Sync>(inputs: &DirInputs<'_, R>, outputs: &DirOutputs<'_, R>)
where
    R::File: Send + Sync,
{
    is_shared(inputs);
    is_shared(outputs);
}
