//! What is answered to the questions of a script.
//! The language: README.md.
//! The rules: docs/HOSTILE_USE.md, "Cases"; docs/PROVING.md, "Tests".

use crate::grids::values_seen;
use crate::runs::{load, run_adapted, run_in_memory, run_surely};
use kt_schema::{COVERAGES, FOOTPRINT};
use kt_script::{Asked, Files, NotTaken, Script, Seen, Settings, words_of, words_seen};
use kt_tools::Words;
use std::alloc::AllocGlobal;
use std::thread::Threads;

/// What a question of this kind leaves.
fn see<R: Threads + Sync + AllocGlobal>(
    rt: &R,
    kind: &str,
    words: &Words,
    files: &Files,
    settings: &Settings,
) -> Result<Seen, NotTaken> {
    match kind {
        "words" => words_seen(rt.alloc(), words),
        "coverages" => values_seen(rt.alloc(), &COVERAGES, files.get("source")),
        "footprint" => values_seen(rt.alloc(), &FOOTPRINT, files.get("source")),
        "load" => load(rt.alloc(), files, settings),
        "run" => run_in_memory(rt, words, files, settings),
        "sure" => run_surely(rt, words, files, settings),
        "std" => run_adapted(rt, words, files, settings),
        _ => Err(NotTaken),
    }
}

/// Answers a question of a script, for each number.
fn answer<R: Threads + Sync + AllocGlobal>(
    rt: &R,
    script: &mut Script,
    asked: Asked,
) -> Result<(), NotTaken> {
    let (kind, words) = asked
        .question
        .split_once(' ')
        .unwrap_or((asked.question, ""));
    let words = words_of(rt.alloc(), words)?;
    script.begin_answers();
    for number in script.first()..=script.last() {
        script.turn_to(number);
        let seen = see(rt, kind, &words, script.files(), script.settings())?;
        script.keep(seen)?;
    }
    script.compare_all(asked.question, asked.wanted)
}

/// Takes a line of a script, and answers the question that it is.
pub(crate) fn take<R: Threads + Sync + AllocGlobal>(
    rt: &R,
    script: &mut Script,
    line: &str,
) -> Result<(), NotTaken> {
    match script.take(line) {
        Ok(Some(asked)) => answer(rt, script, asked),
        Ok(None) => Ok(()),
        Err(NotTaken) => Err(NotTaken),
    }
}
