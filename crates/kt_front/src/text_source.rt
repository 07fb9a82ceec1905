//! Reads the rows of the source, a text, as its parts come: no more of it than a part is kept, unless a row has quotes.
//! The rules: docs/COMMANDS.md, "tobin and tocsv".
ghost use Rattle.std.specs.Prelude.{◌≡◌, ◌<◌, ◌≤◌, ◌+◌, ◌++◌, ◌^◌, ℕ, List, [], length, take, IfOk, IfErr, IfSome, OnOk, Ok, Err};
ghost use Rattle.kt_text.specs.PlainText.{csv_records};
ghost use Rattle.kt_text.specs.Rows.{csv_rows};
ghost use Rattle.kt_cells.specs.Ranges.{IsRow, FitsBytes};
ghost use Rattle.kt_cells.specs.Reading.{table_rows};
ghost use Rattle.kt_cells.specs.declared.stop.TableStop.{TableStop};
ghost use Rattle.kt_cells.specs.Texts.{text_rows, text_value};
ghost use Rattle.kt_front.specs.Converting.{IsTableStop, source_limit};
ghost use Rattle.kt_front.specs.SourceText.{ReadsFront, ReadsPart, ReadsText, ReadsUpTo};

use crate::conversion::source_stop;
use crate::whole_source::{SOURCE_LIMIT, read_on, read_part, too_large};
use kt_cells::{Kind, RowSink, TableStop, TextFront, read_behind, read_behind_heading, read_front};
use kt_ends::ToolStop;
use kt_loop::{BLOCK, zeros};
use kt_out::Source;
use kt_text::behind_heading;
use std::alloc::{AllocError, Global};

// So many bytes tell whether a byte order mark begins a text.
const MARK_BYTES: usize = 3;

// How far the rows of a source are read.
#[derive(Clone, Copy)]
struct Front {
    // How many are read.
    count: u64,
    // The least first value that the next one may have.
    floor: u64,
    // How many bytes more the source may have.
    left: usize,
}

// How the reading of rows ends the tool.
fn rows_end(alloc: Global, read: Result<(), TableStop>) -> Result<(), ToolStop>
    ensures ok { OnOk result (read ≡ Ok tt) }

    ensures refused { IfErr result (λ stop. (why : TableStop) × (read ≡ Err why) × IsTableStop why stop) }
{
    match read {
        Ok(()) => Ok(()),
        Err(stop) => Err(source_stop(alloc, stop)),
    }
}

// The text behind the heading of a text, if the heading has no quotes and is whole.
fn text_behind(alloc: Global, text: &[u8]) -> Result<Option<Vec<u8>>, AllocError>
    ensures { IfOk result (λ found. IfSome found (λ kept. (more : List ℕ) → csv_rows (text.now ++ more) ≡ csv_records (kept.items ++ more))) }
{
    match behind_heading(text) {
        Some(rest) if text.len() >= MARK_BYTES => {
            let mut kept = Vec::new(alloc);
            kept.extend_from_slice(rest)?;
            Ok(Some(kept))
        }
        _ => Ok(None),
    }
}

// Puts what is kept of a text at the front of a block and reads the next bytes of the source behind it; gives how many, 0 at
// the end.
fn read_behind_kept<S: Source>(
    source: &mut S,
    block: &mut [u8],
    kept: &[u8],
) -> Result<usize, ToolStop>
    requires room { length kept.now < length block.old }
    ensures room { length block.new ≡ length block.old }
    ensures within { IfOk result (λ read. length kept.now + read ≤ length block.new) }
    ensures part { IfOk result (λ read. ReadsPart (S.state source.old) (S.state source.new) kept.now (take (length kept.now + read) block.new) read) }

    ensures stopped { IfErr result (λ stop. (most : ℕ) → ReadsUpTo most (S.state source.old) (S.state source.new) (Err stop)) }
{
    let size = kept.len();
    block[..size].copy_from_slice(kept);
    match source.read(&mut block[size..]) {
        Ok(read) => Ok(read),
        Err(_) => Err(ToolStop::ReadFault),
    }
}

// Hands over the rows of a text that stand there without quotes as its parts come, of which some is kept, and keeps what is
// behind them: to the end of the source, or to a row that stands otherwise and fills the block.
#[inline(always)]
fn read_plain<const N: usize, S: Source, K: RowSink<N>>(
    alloc: Global,
    source: &mut S,
    block: &mut [u8],
    kept: &mut Vec<u8>,
    most: usize,
    kinds: &[Kind; N],
    ordered: bool,
    sink: &mut K,
) -> Result<Front, ToolStop>
    requires size { N < 100 }
    requires some { 0 < N }
    requires few { length kept.old.items + most < 2 ^ 64 }
    requires takes { (row : List ℕ) → IsRow 0 kinds.now row → FitsBytes kinds.now row → K.takes row }
    ensures room { length block.new ≡ length block.old }
    ensures front { IfOk result (λ front. ReadsFront (K.takes_to kinds.now) kinds.now ordered (S.state source.old) (S.state source.new) sink.old sink.new kept.old.items kept.new.items front.count front.floor most front.left) }

    ensures stopped { IfErr result (λ stop. ReadsUpTo most (S.state source.old) (S.state source.new) (Err stop)) }
{
    let mut count = 0;
    let mut floor = 0;
    let mut left = most;
    'parts: while kept.len() < block.len() {
        let size = kept.len();
        let read = match read_behind_kept(source, block, kept.as_slice()) {
            Ok(read) => read,
            Err(stop) => return Err(stop),
        };
        if read == 0 {
            break;
        }
        if read > left {
            return Err(too_large(alloc));
        }
        let rest = &block[..size + read];
        let front = read_front(TextFront { count, floor, rest }, kinds, ordered, sink)?;
        count = front.count;
        floor = front.floor;
        left -= read;
        kept.clear();
        kept.extend_from_slice(front.rest)?;
    }
    Ok(Front { count, floor, left })
}

// Hands over the rows of a text whose heading is read: as its parts come, and the last ones, or those from one with quotes on,
// once the source is read to its end.
#[inline(always)]
fn read_records<const N: usize, S: Source, K: RowSink<N>>(
    alloc: Global,
    source: &mut S,
    block: &mut [u8],
    kept: Vec<u8>,
    most: usize,
    kinds: &[Kind; N],
    ordered: bool,
    sink: &mut K,
) -> Result<(), ToolStop>
    requires size { N < 100 }
    requires some { 0 < N }
    requires room { 0 < length block.old }
    requires few { length kept.items + most < 2 ^ 64 }
    requires limit { most ≤ 1073741824 }
    requires takes { (row : List ℕ) → IsRow 0 kinds.now row → FitsBytes kinds.now row → K.takes row }
    requires fresh { K.takes_to kinds.now sink.old [] sink.old }
    ensures { ReadsText most (λ rows. K.takes_to kinds.now sink.old rows sink.new) (λ more. table_rows text_value ordered 1 kinds.now 0 1 (csv_records (kept.items ++ more))) (S.state source.old) (S.state source.new) result }
{
    let mut text = kept;
    let front = match read_plain(alloc, source, block, &mut text, most, kinds, ordered, sink) {
        Ok(front) => front,
        Err(stop) => return Err(stop),
    };
    if let Err(stop) = read_on(alloc, source, block, &mut text, front.left) {
        return Err(stop);
    }
    let rest = TextFront {
        count: front.count,
        floor: front.floor,
        rest: text.as_slice(),
    };
    rows_end(alloc, read_behind(alloc, rest, kinds, ordered, sink))
}

// Hands over the rows of a text whose heading has quotes or fills a block, once the source is read to its end.
#[inline(never)]
fn read_whole_text<const N: usize, S: Source, K: RowSink<N>>(
    alloc: Global,
    source: &mut S,
    block: &mut [u8],
    front: Vec<u8>,
    most: usize,
    kinds: &[Kind; N],
    ordered: bool,
    sink: &mut K,
) -> Result<(), ToolStop>
    requires size { N < 100 }
    requires some { 0 < N }
    requires room { 0 < length block.old }
    requires limit { most ≤ 1073741824 }
    requires takes { (row : List ℕ) → IsRow 0 kinds.now row → FitsBytes kinds.now row → K.takes row }
    requires fresh { K.takes_to kinds.now sink.old [] sink.old }
    ensures { ReadsText most (λ rows. K.takes_to kinds.now sink.old rows sink.new) (λ more. table_rows text_value ordered 1 kinds.now 0 1 (csv_rows (front.items ++ more))) (S.state source.old) (S.state source.new) result }
{
    let mut text = front;
    if let Err(stop) = read_on(alloc, source, block, &mut text, most) {
        return Err(stop);
    }
    let read = read_behind_heading(alloc, text.as_slice(), kinds, ordered, sink);
    rows_end(alloc, read)
}

/// Hands over the rows of the source, a text, its heading left out. The source is read to its end before it is refused.
#[inline(always)]
#[tactic(auto, unfolding(kt_cells::specs::Texts::text_rows))]
pub(crate) fn read_rows<const N: usize, S: Source, K: RowSink<N>>(
    alloc: Global,
    source: &mut S,
    kinds: &[Kind; N],
    ordered: bool,
    sink: &mut K,
) -> Result<(), ToolStop>
    requires size { N < 100 }
    requires some { 0 < N }
    requires takes { (row : List ℕ) → IsRow 0 kinds.now row → FitsBytes kinds.now row → K.takes row }
    requires fresh { K.takes_to kinds.now sink.old [] sink.old }
    ensures { ReadsText source_limit (λ rows. K.takes_to kinds.now sink.old rows sink.new) (text_rows ordered kinds.now) (S.state source.old) (S.state source.new) result }
{
    let mut block = zeros(alloc, BLOCK)?;
    let mut text = Vec::new(alloc);
    let read = match read_part(source, block.as_mut_slice(), &mut text) {
        Ok(read) => read,
        Err(stop) => return Err(stop),
    };
    let left = SOURCE_LIMIT - read;
    let block = block.as_mut_slice();
    match text_behind(alloc, text.as_slice())? {
        Some(kept) => read_records(alloc, source, block, kept, left, kinds, ordered, sink),
        None => read_whole_text(alloc, source, block, text, left, kinds, ordered, sink),
    }
}
