//! Reads the whole source.
//! The rules: docs/COMMANDS.md, "tobin and tocsv".
ghost use Rattle.std.specs.Prelude.{◌≡◌, ◌<◌, ◌≤◌, ℕ, length, IfOk, IfErr, OnOk, MatchResult, Ok, Err};
ghost use Rattle.kt_front.specs.Converting.{ReadsWhole, IsTooLarge, source_name};
ghost use Rattle.kt_front.specs.SourceText.{ReadsPart, ReadsOn, ReadsUpTo};

use kt_ends::{Refusal, ToolStop};
use kt_loop::{BLOCK, zeros};
use kt_out::Source;
use kt_rec::Name;
use std::alloc::{AllocError, Global};

/// The most bytes that the source may have.
pub(crate) const SOURCE_LIMIT: usize = 1_073_741_824;

// More turns than that: each turn but the last reads one byte at the least.
const TURNS: u64 = 1_073_741_826;

/// The name of the source in a refusal. An error is want of memory.
pub fn source_label(alloc: Global) -> Result<Name, AllocError>
    ensures { IfOk result (λ name. name ≡ source_name) }
{
    let mut name = Name::new(alloc);
    name.append(b"source")?;
    Ok(name)
}

/// The stop for a source that has too many bytes.
pub(crate) fn too_large(alloc: Global) -> ToolStop
    ensures { IsTooLarge result }
{
    match source_label(alloc) {
        Ok(name) => ToolStop::Refused(Refusal::TooLarge { name }),
        Err(_) => ToolStop::NoMemory,
    }
}

/// Reads a part of the source into a block and appends it to what was read, and gives the number of its bytes: 0 at the end.
pub(crate) fn read_part<S: Source>(
    source: &mut S,
    block: &mut [u8],
    bytes: &mut Vec<u8>,
) -> Result<usize, ToolStop>
    requires room { 0 < length block.old }
    ensures room { length block.new ≡ length block.old }
    ensures within { IfOk result (λ read. read ≤ length block.old) }
    ensures part { IfOk result (ReadsPart (S.state source.old) (S.state source.new) bytes.old.items bytes.new.items) }

    ensures stopped { IfErr result (λ stop. (most : ℕ) → ReadsUpTo most (S.state source.old) (S.state source.new) (Err stop)) }
{
    let read = match source.read(block) {
        Ok(read) => read,
        Err(_) => return Err(ToolStop::ReadFault),
    };
    bytes.extend_from_slice(&block[..read])?;
    Ok(read)
}

/// Reads the source to its end, behind what is there. Refused where more bytes come than so many.
pub(crate) fn read_on<S: Source>(
    alloc: Global,
    source: &mut S,
    block: &mut [u8],
    bytes: &mut Vec<u8>,
    most: usize,
) -> Result<(), ToolStop>
    requires room { 0 < length block.old }
    requires few { most ≤ 1073741824 }
    ensures read { OnOk result (ReadsOn most (S.state source.old) (S.state source.new) bytes.old.items bytes.new.items) }

    ensures stopped { IfErr result (λ stop. ReadsUpTo most (S.state source.old) (S.state source.new) (Err stop)) }
{
    let mut left = most;
    'turns: for _ in 0..TURNS {
        let read = match read_part(source, block, bytes) {
            Ok(read) => read,
            Err(stop) => return Err(stop),
        };
        if read == 0 {
            return Ok(());
        }
        if read > left {
            return Err(too_large(alloc));
        }
        left -= read;
    }
    unreachable!()
}

/// All bytes of the source. Refused where they are more than 2^30, as `source: too large`; a failed read is a fault that
/// the source counted.
pub fn read_whole<S: Source>(alloc: Global, source: &mut S) -> Result<Vec<u8>, ToolStop>
    ensures value { MatchResult result (λ bytes. ReadsWhole (S.state source.old) (S.state source.new) (Ok bytes.items)) (λ stop. ReadsWhole (S.state source.old) (S.state source.new) (Err stop)) }
{
    let mut block = zeros(alloc, BLOCK)?;
    let mut bytes = Vec::new(alloc);
    match read_on(
        alloc,
        source,
        block.as_mut_slice(),
        &mut bytes,
        SOURCE_LIMIT,
    ) {
        Ok(()) => Ok(bytes),
        Err(stop) => Err(stop),
    }
}
