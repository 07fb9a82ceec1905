//! The files of the current folder, of which the last one stays open between calls.
//! The rule: docs/ARCHITECTURE.md, "The outside".
ghost use Rattle.std.specs.Prelude.{◌≡◌, ◌<◌, ◌≤◌, length, IfOk};

use crate::std_streams::read_some;
use kt_out::{Absent, Fault, some_read};
use std::alloc::Global;
use std::fs;
use std::fs::{File, Files};
use std::io::{Error, ErrorKind, Read, Seek, SeekFrom};

/// The files of the current folder.
#[derive(Drop)]
pub struct Folder<'a, R: Files> {
    rt: &'a R,
    alloc: Global,
    last: Option<NamedFile<R::File>>,
}

// An open file, the name by which it was opened, and the size that it had then.
#[derive(Drop)]
struct NamedFile<F: Drop> {
    name: Vec<u8>,
    file: F,
    size: u64,
}

impl<'a, R: Files> Folder<'a, R> {
    /// No file is open.
    pub fn new(rt: &'a R, alloc: Global) -> Self {
        Folder {
            rt,
            alloc,
            last: None,
        }
    }

    /// The size of a file. It is opened anew, and stays open. An error is that it is not found (`Missing`), that the
    /// system does not open or measure it (`Failed`), or want of memory.
    pub fn size(&mut self, name: &[u8]) -> Result<u64, Absent> {
        let opened = open(self.rt, self.alloc, name)?;
        let size = opened.size;
        self.last = Some(opened);
        Ok(size)
    }

    /// Reads some bytes of a file from a place on; none are there is a fault.
    pub fn read_at(&mut self, name: &[u8], at: u64, buf: &mut [u8]) -> Result<usize, Fault>
        ensures within { IfOk result (λ n. (0 < n) × (n ≤ length buf.old)) }
    {
        let mut opened = match self.last.take() {
            Some(last) if last.name.as_slice() == name => last,
            _ => open(self.rt, self.alloc, name).map_err(fault_of_absence)?,
        };
        let answer = read_from(&mut opened.file, at, buf);
        self.last = Some(opened);
        answer
    }
}

// Opens a file for reading. Its name is copied first, so that want of memory opens nothing. What is
// no file, as a folder is none, is not opened and is a fault. The system is asked for a text alone, so a name that
// is none is not found.
fn open<R: Files>(rt: &R, alloc: Global, name: &[u8]) -> Result<NamedFile<R::File>, Absent> {
    let name = name.to_vec(alloc).map_err(|_| Absent::OutOfMemory)?;
    let Ok(path) = str::from_utf8(&name) else {
        return Err(Absent::Missing);
    };
    let found = fs::metadata(rt, path).map_err(absence_of_error)?;
    if !found.is_file() {
        return Err(Absent::Failed);
    }
    let file = File::open(rt, path).map_err(absence_of_error)?;
    Ok(NamedFile {
        name,
        file,
        size: found.len(),
    })
}

// Reads some bytes of an open file from a place on.
fn read_from<F: Read + Seek>(file: &mut F, at: u64, buf: &mut [u8]) -> Result<usize, Fault>
    ensures within { IfOk result (λ n. (0 < n) × (n ≤ length buf.old)) }
{
    if file.seek(SeekFrom::Start(at)).is_err() {
        return Err(Fault::Failed);
    }
    some_read(read_some(file, buf))
}

// Only a path that is not found is a missing file.
fn absence_of_error(error: Error) -> Absent {
    match error.kind() {
        ErrorKind::NotFound => Absent::Missing,
        _ => Absent::Failed,
    }
}

// To a read, a file that is not there is a fault.
fn fault_of_absence(absent: Absent) -> Fault {
    match absent {
        Absent::OutOfMemory => Fault::OutOfMemory,
        Absent::Failed | Absent::Missing => Fault::Failed,
    }
}
