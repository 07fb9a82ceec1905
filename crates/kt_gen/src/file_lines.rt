//! What a run of a generated set shows of its output files: a line for each.
//! The rules: docs/GENERATOR.md, "What is shown of a run".
ghost use Rattle.std.specs.Prelude.{◌≡◌, ◌++◌, List, ℕ, OnOk, OnErr, map};
ghost use Rattle.kt_cells.specs.Taking.{HasMore};
ghost use Rattle.kt_counted.specs.Counts.{counts_of};
ghost use Rattle.kt_out.specs.NamedFiles.{bytes_of};
ghost use Rattle.kt_gen.specs.FileLines.{file_line, file_lines, line_of};

use kt_counted::{CountedOutputs, Counts};
use kt_money::{Bytes, OutOfMemory, push_count};
use kt_outputs::Named;
use kt_rec::Name;
use std::alloc::Global;

/// Appends the line of a file with these counts. An error is want of memory.
fn push_file_line(out: &mut Bytes, name: &[u8], counts: Counts) -> Result<(), OutOfMemory>
    ensures ok { (text : List ℕ) → counts ≡ counts_of text → OnOk result (out.new ≡ out.old ++ file_line name.now text) }
    ensures kept { OnErr result (HasMore out.old out.new) }
{
    out.append(name)?;
    out.push(b' ')?;
    push_count(out, counts.lines)?;
    out.push(b' ')?;
    push_count(out, counts.bytes)?;
    out.push(b'\n')
}

/// Appends the line of a name that may stand for a file. An error is want of memory.
fn push_line_of<F: Named>(
    alloc: Global,
    out: &mut Bytes,
    file: &F,
    outputs: &CountedOutputs,
) -> Result<(), OutOfMemory>
    ensures ok { OnOk result (out.new ≡ out.old ++ line_of (F.name file.now) (bytes_of outputs.now (F.name file.now))) }
    ensures kept { OnErr result (HasMore out.old out.new) }
{
    let mut name = Name::new(alloc);
    file.push_name(&mut name)?;
    match outputs.counts(name.as_slice()) {
        Some(counts) => push_file_line(out, name.as_slice(), counts),
        None => Ok(()),
    }
}

/// Appends a line for each of these files that the outputs hold, in the order of the list: its name, how many lines it has
/// and how many bytes. An error is want of memory; then some of the lines may stand behind what was there.
pub fn push_file_lines<F: Named>(
    alloc: Global,
    out: &mut Bytes,
    files: &[F],
    outputs: &CountedOutputs,
) -> Result<(), OutOfMemory>
    ensures ok { OnOk result (out.new ≡ out.old ++ file_lines (bytes_of outputs.now) (map F.name files.now)) }

    ensures kept { OnErr result (HasMore out.old out.new) }
{
    for file in files {
        push_line_of(alloc, out, file, outputs)?;
    }
    Ok(())
}
