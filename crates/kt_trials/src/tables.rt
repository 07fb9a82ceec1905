//! The tables of a run of some events over one item.
//! What they are for: README.md.
//! The rule: docs/PROVING.md, "Tests".

use crate::failure::Failure;
use crate::runs::ended;
use crate::words::words_of;
use kt_out::{MemInputs, Open, SureInputs, SureSink};
use kt_tools::{Status, Words};
use std::alloc::{AllocGlobal, Global};
use std::thread::Threads;

/// A table: its file, the words that make the file of its text, and the rows of the text.
#[derive(Clone, Copy)]
struct Table(&'static str, &'static str, &'static str);

/// A file of a run: its name and its bytes.
#[derive(Drop)]
struct NamedFile {
    name: &'static str,
    bytes: Vec<u8>,
}

/// How each of sixteen events strikes the item: for certain, at the one intensity.
const STRIKES: &str =
    "1,1,1,1\n2,1,1,1\n3,1,1,1\n4,1,1,1\n5,1,1,1\n6,1,1,1\n7,1,1,1\n8,1,1,1\n9,1,1,1\n10,1,1,1\n11,1,1,1\n12,1,1,1\n13,1,1,1\n14,1,1,1\n15,1,1,1\n16,1,1,1\n";

/// The events in their order.
pub(crate) const RISING: &str = "1\n2\n3\n4\n5\n6\n7\n8\n9\n10\n11\n12\n13\n14\n15\n16\n";

/// The same, the last first.
pub(crate) const FALLING: &str = "16\n15\n14\n13\n12\n11\n10\n9\n8\n7\n6\n5\n4\n3\n2\n1\n";

/// The tables but for those of the events and their footprint.
const TABLES: [Table; 8] = [
    Table("input/items.bin", "tobin items", "1,1,1,1,1\n"),
    Table("input/coverages.bin", "tobin coverages", "1,1000\n"),
    Table(
        "static/vulnerability.bin",
        "tobin vulnerability",
        "1,1,1,0.5\n1,1,2,0.3\n1,1,3,0.2\n",
    ),
    Table(
        "static/damage_bin_dict.bin",
        "tobin damage_bin_dict",
        "1,0,0,0,1\n2,0,0.5,0.25,1\n3,0.5,1,0.75,1\n",
    ),
    Table("static/random.bin", "tobin random", "0.65\n"),
    Table(
        "input/gulsummaryxref.bin",
        "tobin gulsummaryxref",
        "1,1,1\n",
    ),
    Table(
        "input/occurrence.bin",
        "tobin occurrence -P 2",
        "1,1,2001,1,1\n2,2,2002,3,4\n",
    ),
    Table("input/returnperiods.bin", "tobin returnperiods", "2\n1\n"),
];

/// The text of a table with these rows; what stands in its first line is not read.
fn text_of(alloc: Global, rows: &str) -> Result<Vec<u8>, Failure> {
    let mut text = b"heading\n".to_vec(alloc)?;
    text.extend_from_slice(rows.as_bytes())?;
    Ok(text)
}

/// Whether a run over a text is done; what it writes goes into the sink.
fn is_done<R: Threads + Sync + AllocGlobal>(
    rt: &R,
    words: &Words,
    text: Vec<u8>,
    sink: &mut SureSink,
) -> bool {
    let alloc = rt.alloc();
    let mut inputs = SureInputs::new(alloc);
    let mut err = SureSink::new(alloc);
    let status = ended(rt, &Open, words, &mut inputs, text, sink, &mut err);
    matches!(status, Status::Done)
}

/// What these words make of the text of these rows.
fn made_of<R: Threads + Sync + AllocGlobal>(
    rt: &R,
    words: &str,
    rows: &str,
) -> Result<Vec<u8>, Failure> {
    let words = words_of(rt.alloc(), words)?;
    let text = text_of(rt.alloc(), rows)?;
    let mut sink = SureSink::new(rt.alloc());
    if !is_done(rt, &words, text, &mut sink) {
        return Err(Failure);
    }
    Ok(sink.taken().to_vec(rt.alloc())?)
}

/// Adds the file of a table, as the program makes it of the text of these rows.
fn add_file<R: Threads + Sync + AllocGlobal>(
    rt: &R,
    files: &mut Vec<NamedFile>,
    name: &'static str,
    words: &str,
    rows: &str,
) -> Result<(), Failure> {
    let bytes = made_of(rt, words, rows)?;
    files.push(NamedFile { name, bytes })?;
    Ok(())
}

/// The files of a run of these events, which strike the item so.
fn files_of<R: Threads + Sync + AllocGlobal>(
    rt: &R,
    events: &str,
    strikes: &str,
) -> Result<Vec<NamedFile>, Failure> {
    let mut files = Vec::new(rt.alloc());
    add_file(rt, &mut files, "input/events.bin", "tobin events", events)?;
    add_file(
        rt,
        &mut files,
        "static/footprint.bin",
        "tobin footprint",
        strikes,
    )?;
    add_file(
        rt,
        &mut files,
        "static/footprint.idx",
        "tobin footprint_idx",
        strikes,
    )?;
    for table in &TABLES {
        add_file(rt, &mut files, table.0, table.1, table.2)?;
    }
    Ok(files)
}

/// The files of a run of the sixteen events in this order.
pub(crate) fn inputs_of<R: Threads + Sync + AllocGlobal>(
    rt: &R,
    events: &str,
) -> Result<SureInputs, Failure> {
    let mut inputs = SureInputs::new(rt.alloc());
    for file in &files_of(rt, events, STRIKES)? {
        inputs.add(file.name.as_bytes(), &file.bytes)?;
    }
    Ok(inputs)
}

/// The files of a run of these events, which strike the item so, and which keep what was read of them. One read moves all that it
/// asks for.
pub(crate) fn kept_inputs_of<R: Threads + Sync + AllocGlobal>(
    rt: &R,
    events: &str,
    strikes: &str,
) -> Result<MemInputs, Failure> {
    let alloc = rt.alloc();
    let mut inputs = MemInputs::new(alloc, Vec::new(alloc), u64::MAX);
    for file in &files_of(rt, events, strikes)? {
        inputs.add(file.name.as_bytes(), &file.bytes)?;
    }
    Ok(inputs)
}
