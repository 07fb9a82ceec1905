//! The files of a case.
//! The language: README.md, "Files".
//! The rule: docs/PROVING.md, "Tests".

use crate::not_taken::NotTaken;
use crate::settings::Settings;
use crate::texts::{number, push_rows, push_word};
use kt_load::{file_name, load_order};
use kt_out::MemInputs;
use kt_rec::{Table, TableSet};
use kt_schema::csv_to_bin;
use std::alloc::{AllocError, Global};

/// What is given of a file.
#[derive(Clone, Copy)]
enum Content {
    /// There is no such file.
    Gone,
    /// Its bytes.
    Bytes,
    /// Its lines.
    Lines,
    /// The rows of its table, as a text.
    Rows(Table),
}

/// A file by its name.
#[derive(Drop)]
struct NamedFile {
    name: String,
    content: Content,
    bytes: Vec<u8>,
}

/// The files of a case: of one name the last counts. Those that stand before the first case are in all of them.
#[derive(Drop)]
pub struct Files {
    alloc: Global,
    list: Vec<NamedFile>,
    base: usize,
}

/// The table whose file has this name.
fn table_of(alloc: Global, name: &str) -> Result<Option<Table>, AllocError> {
    for id in load_order() {
        if file_name(alloc, id)?.as_slice() == name.as_bytes() {
            return Ok(Some(id.table));
        }
    }
    Ok(None)
}

/// The last file of this name.
fn find<'a>(files: &'a [NamedFile], name: &str) -> Option<&'a NamedFile> {
    files.iter().rev().find(|file| file.name.as_str() == name)
}

/// Whether a file of this name is an output file.
pub(crate) fn is_output(name: &str) -> bool {
    name.ends_with(".csv")
}

/// The size of the output file at the front of these and 1 for itself; 0 where it is none, or one behind it has its name.
fn first_size(files: &[NamedFile]) -> u64 {
    match files {
        [file, others @ ..] if is_output(file.name.as_str()) => {
            match find(others, file.name.as_str()) {
                Some(_) => 0,
                None => file.bytes.len().saturating_add(1) as u64,
            }
        }
        _ => 0,
    }
}

/// The file of a table, from its rows behind a heading.
fn made_of_rows(
    alloc: Global,
    table: Table,
    periods: u32,
    text: &[u8],
) -> Result<Vec<u8>, NotTaken> {
    let extra = match table {
        Table::Occurrence => periods,
        _ => 0,
    };
    match csv_to_bin(alloc, table, extra, text) {
        Ok(bytes) => Ok(bytes.as_slice().to_vec(alloc)?),
        Err(_) => Err(NotTaken),
    }
}

/// The bytes of a file.
fn bytes_of(alloc: Global, file: &NamedFile, periods: u32) -> Result<Vec<u8>, NotTaken> {
    match file.content {
        Content::Rows(table) => made_of_rows(alloc, table, periods, &file.bytes),
        _ => Ok(file.bytes.as_slice().to_vec(alloc)?),
    }
}

impl Files {
    /// No file.
    pub(crate) fn new(alloc: Global) -> Self {
        Files {
            alloc,
            list: Vec::new(alloc),
            base: 0,
        }
    }

    /// The files so far are those of all cases.
    pub(crate) fn keep_base(&mut self) {
        self.base = self.list.len();
    }

    /// A case begins: its files are those of all cases.
    pub(crate) fn begin(&mut self) {
        self.list.truncate(self.base);
    }

    /// The bytes or lines that are given under this name, none where there are none.
    pub fn get(&self, name: &str) -> &[u8] {
        match find(&self.list, name) {
            Some(file) => file.bytes.as_slice(),
            None => &[],
        }
    }

    /// The first bytes of the source, which is what was turned where there is such.
    pub fn source(&self, cut: u32) -> &[u8] {
        let source = match find(&self.list, "turned") {
            Some(file) => file.bytes.as_slice(),
            None => self.get("source"),
        };
        source.get(..cut as usize).unwrap_or(source)
    }

    /// How many output files are given and bytes in them, together.
    pub(crate) fn wanted_size(&self) -> u64 {
        let mut size: u64 = 0;
        for n in 0..self.list.len() {
            size = size.saturating_add(first_size(&self.list[n..]));
        }
        size
    }

    /// Gives a file.
    fn give(&mut self, name: &str, content: Content, bytes: Vec<u8>) -> Result<(), NotTaken> {
        let name = String::from_str(self.alloc, name)?;
        self.list.push(NamedFile {
            name,
            content,
            bytes,
        })?;
        Ok(())
    }

    /// Gives a file these bytes.
    pub(crate) fn give_bytes(&mut self, name: &str, bytes: &[u8]) -> Result<(), NotTaken> {
        let bytes = bytes.to_vec(self.alloc)?;
        self.give(name, Content::Bytes, bytes)
    }

    /// Begins the rows of a file, behind a heading where it is that of a table.
    fn begin_rows(&mut self, name: &str) -> Result<(), NotTaken> {
        let (content, heading) = match table_of(self.alloc, name)? {
            Some(table) => (Content::Rows(table), "heading\n"),
            None => (Content::Lines, ""),
        };
        let bytes = heading.as_bytes().to_vec(self.alloc)?;
        self.give(name, content, bytes)
    }

    /// Adds a row to the last file.
    pub(crate) fn add_row(&mut self, row: &str) -> Result<(), NotTaken> {
        match self.list.last_mut() {
            Some(file) => match file.content {
                Content::Lines | Content::Rows(_) => push_rows(self.alloc, &mut file.bytes, row),
                Content::Gone | Content::Bytes => Err(NotTaken),
            },
            None => Err(NotTaken),
        }
    }

    /// Gives a file the bytes of words.
    fn give_words(&mut self, name: &str, words: &str) -> Result<(), NotTaken> {
        let mut bytes = Vec::new(self.alloc);
        for word in words.split_whitespace() {
            push_word(&mut bytes, word)?;
        }
        self.give(name, Content::Bytes, bytes)
    }

    /// Cuts a file, or continues it by zeros, to a size.
    fn resize(&mut self, name: &str, size: &str, periods: u32) -> Result<(), NotTaken> {
        let size = number(size)?;
        let mut bytes = match find(&self.list, name) {
            Some(file) => bytes_of(self.alloc, file, periods)?,
            None => return Err(NotTaken),
        };
        bytes.resize(size as usize, 0)?;
        self.give(name, Content::Bytes, bytes)
    }

    /// Takes a line about files, by its first word and what is behind it.
    pub(crate) fn change(&mut self, verb: &str, rest: &str, periods: u32) -> Result<(), NotTaken> {
        let (name, words) = rest.split_once(' ').unwrap_or((rest, ""));
        match verb {
            "file" => self.begin_rows(name),
            "bytes" => self.give_words(name, words),
            "gone" => self.give(name, Content::Gone, Vec::new(self.alloc)),
            "resize" => self.resize(name, words, periods),
            _ => self.give_bytes(verb, rest.as_bytes()),
        }
    }

    /// Whether a table is loaded: its name begins as one that `of` gives.
    fn loads(&self, name: &[u8]) -> bool {
        self.get("of")
            .split(|byte| *byte == b' ')
            .any(|front| name.starts_with(front))
    }

    /// The tables that are loaded. An error is want of memory.
    pub fn loaded(&self) -> Result<TableSet, AllocError> {
        let mut loaded = TableSet::new();
        for id in load_order() {
            if self.loads(file_name(self.alloc, id)?.as_slice()) {
                loaded.add(id);
            }
        }
        Ok(loaded)
    }

    /// Adds the file at the front of these to the inputs, unless one behind it has its name or it is gone.
    fn add_first(
        &self,
        files: &[NamedFile],
        periods: u32,
        inputs: &mut MemInputs,
    ) -> Result<(), NotTaken> {
        match files {
            [file, others @ ..] => match (file.content, find(others, file.name.as_str())) {
                (Content::Gone, _) | (_, Some(_)) => Ok(()),
                _ => {
                    let bytes = bytes_of(self.alloc, file, periods)?;
                    inputs.add(file.name.as_bytes(), &bytes)?;
                    Ok(())
                }
            },
            [] => Ok(()),
        }
    }

    /// The files as inputs. An error is rows that are none of their table, or want of memory.
    pub fn inputs(&self, settings: &Settings) -> Result<MemInputs, NotTaken> {
        let fails = vec![in self.alloc; settings.files as u64]?;
        let mut inputs = MemInputs::new(self.alloc, fails, settings.most.max(1) as u64);
        for n in 0..self.list.len() {
            self.add_first(&self.list[n..], settings.periods, &mut inputs)?;
        }
        Ok(inputs)
    }
}
