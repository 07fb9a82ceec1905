//! What a question left to be seen.
//! The language: README.md.
//! The rule: docs/PROVING.md, "Tests".

use crate::files::{Files, is_output};
use crate::not_taken::NotTaken;
use kt_ends::{Status, report};
use kt_out::{MemOutputs, SureSink};
use std::alloc::{AllocError, Global};

/// What a question left: its answer, and the output and the output files where there was a run.
#[derive(Drop)]
pub struct Seen {
    pub(crate) answer: String,
    pub(crate) output: Vec<u8>,
    pub(crate) files: MemOutputs,
}

/// Bytes as words of four bytes, in hexadecimal digits; `none` where there are none.
fn hex_text(alloc: Global, bytes: &[u8]) -> Result<String, AllocError> {
    if bytes.is_empty() {
        return format!(in alloc; "none");
    }
    let mut text = String::new(alloc);
    for (n, byte) in bytes.iter().enumerate() {
        let blank = if n > 0 && n % 4 == 0 { " " } else { "" };
        text.push_str(format!(in alloc; "{blank}{byte:02x}")?.as_str())?;
    }
    Ok(text)
}

/// Bytes as a text, with ` | ` between its lines; `none` where there are none.
fn line_text(alloc: Global, bytes: &[u8]) -> Result<String, AllocError> {
    if bytes.is_empty() {
        return format!(in alloc; "none");
    }
    let whole = str::from_utf8(bytes).unwrap_or("no text");
    let (lines, end) = match whole.strip_suffix('\n') {
        Some(lines) => (lines, ""),
        None => (whole, " (no end of line)"),
    };
    let mut text = String::new(alloc);
    for (n, line) in lines.split('\n').enumerate() {
        let between = if n > 0 { " | " } else { "" };
        text.push_str(between)?;
        text.push_str(line)?;
    }
    text.push_str(end)?;
    Ok(text)
}

/// The number, counted from 1, of the first byte that is wanted and not in the output, which is a front of the wanted bytes.
fn lack_text(alloc: Global, output: &[u8], wanted: &[u8]) -> Result<String, AllocError> {
    if !wanted.starts_with(output) {
        return format!(in alloc; "no front");
    }
    if output.len() == wanted.len() {
        return format!(in alloc; "nothing");
    }
    format!(in alloc; "{}", output.len().saturating_add(1))
}

/// No output file.
fn no_files(alloc: Global) -> MemOutputs {
    MemOutputs::new(alloc, Vec::new(alloc), 1)
}

/// The name of an output file.
fn name_text(name: &[u8]) -> &str {
    str::from_utf8(name).unwrap_or("no text")
}

/// The names of the output files, in the order in which they were made.
fn names_text(alloc: Global, outputs: &MemOutputs) -> Result<String, AllocError> {
    if outputs.count() == 0 {
        return format!(in alloc; "none");
    }
    let mut text = String::new(alloc);
    for n in 0..outputs.count() {
        let blank = if n > 0 { " " } else { "" };
        text.push_str(blank)?;
        text.push_str(name_text(outputs.name(n)))?;
    }
    Ok(text)
}

/// The lines of an output file.
fn file_text(alloc: Global, outputs: &MemOutputs, name: &str) -> Result<String, AllocError> {
    match outputs.get(name.as_bytes()) {
        Some(bytes) => line_text(alloc, bytes),
        None => format!(in alloc; "not made"),
    }
}

/// How many files were made and bytes were written to them, together; none where one of them is no front of the file of its
/// name that is wanted.
fn made_size(outputs: &MemOutputs, wanted: &Files) -> Option<u64> {
    let mut size: u64 = 0;
    for n in 0..outputs.count() {
        let name = outputs.name(n);
        let bytes = outputs.get(name).unwrap_or(&[]);
        if !wanted.get(name_text(name)).starts_with(bytes) {
            return None;
        }
        size = size.saturating_add(1).saturating_add(bytes.len() as u64);
    }
    Some(size)
}

/// The number, counted from 1 over the files and their bytes together, of the first file or byte that is wanted and was not
/// made, where each file is a front of the one that is wanted.
fn made_text(alloc: Global, outputs: &MemOutputs, wanted: &Files) -> Result<String, AllocError> {
    match made_size(outputs, wanted) {
        Some(size) if size == wanted.wanted_size() => format!(in alloc; "nothing"),
        Some(size) => format!(in alloc; "{}", size.saturating_add(1)),
        None => format!(in alloc; "no front"),
    }
}

/// The exit status, and the line of a refusal.
fn status_text(alloc: Global, code: u8, line: &[u8]) -> Result<String, AllocError> {
    if line.is_empty() {
        return format!(in alloc; "{code}");
    }
    let line = line_text(alloc, line)?;
    format!(in alloc; "{code} {line}")
}

/// Whether a question looks at what the last one left.
pub(crate) fn is_look(question: &str) -> bool {
    matches!(
        question,
        "text" | "bytes" | "lacks" | "is the source" | "files" | "files lack"
    ) || is_output(question)
}

impl Seen {
    /// What a question left that has this answer and is no run.
    pub fn of_text(alloc: Global, answer: String) -> Self {
        Seen {
            answer,
            output: Vec::new(alloc),
            files: no_files(alloc),
        }
    }

    /// What a run or a load left. An error is want of memory.
    pub fn new(alloc: Global, code: u8, output: &[u8], line: &[u8]) -> Result<Self, NotTaken> {
        Ok(Seen {
            answer: status_text(alloc, code, line)?,
            output: output.to_vec(alloc)?,
            files: no_files(alloc),
        })
    }

    /// The same with output files.
    pub fn with_files(self, files: MemOutputs) -> Self {
        Seen {
            answer: self.answer,
            output: self.output,
            files,
        }
    }

    /// The answer of a question that looks at it; of any other its own answer.
    pub(crate) fn look(
        &self,
        alloc: Global,
        question: &str,
        files: &Files,
    ) -> Result<String, AllocError> {
        match question {
            "text" => line_text(alloc, &self.output),
            "bytes" => hex_text(alloc, &self.output),
            "lacks" => lack_text(alloc, &self.output, files.get("wanted")),
            "files" => names_text(alloc, &self.files),
            "files lack" => made_text(alloc, &self.files, files),
            "is the source" => {
                let is_same = self.output.as_slice() == files.get("source");
                format!(in alloc; "{is_same}")
            }
            _ if is_output(question) => file_text(alloc, &self.files, question),
            _ => self.answer.clone(),
        }
    }
}

/// What a run leaves that writes nothing and ends so. An error is want of memory.
pub fn ended(alloc: Global, status: Status) -> Result<Seen, NotTaken> {
    let mut err = SureSink::new(alloc);
    let code = report(alloc, status, &mut err).code();
    Seen::new(alloc, code, &[], err.taken())
}
