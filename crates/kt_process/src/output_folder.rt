//! The files of the folder `output` of the current folder, which stay open between calls as long as the system lets them.
//! The rule: docs/ARCHITECTURE.md, "The outside".
ghost use Rattle.std.specs.Prelude.{◌<◌, ◌≤◌, length, IfOk, IfSome};

use crate::std_streams::write_some;
use kt_out::Fault;
use std::alloc::Global;
use std::fs::{File, Files, OpenOptions};
use std::io::ErrorKind;
use std::{fs, io};

/// The folder in which the files stand.
const FOLDER: &str = "output";

/// The files of the folder `output` of the current folder.
#[derive(Drop)]
pub struct OutputFolder<'a, R: Files> {
    rt: &'a R,
    alloc: Global,
    files: Vec<OpenOutput<R::File>>,
}

// An open file, and the name by which it was opened.
#[derive(Drop)]
struct OpenOutput<F: Drop> {
    name: Vec<u8>,
    file: F,
}

// How a file is opened: made empty, or written on at its end.
#[derive(Clone, Copy)]
enum Opening {
    Empty,
    AtEnd,
}

impl<'a, R: Files> OutputFolder<'a, R> {
    /// No file is open, and no folder is made.
    pub fn new(rt: &'a R, alloc: Global) -> Self {
        OutputFolder {
            rt,
            alloc,
            files: Vec::new(alloc),
        }
    }

    /// Makes a file empty, whatever it held, and keeps it open. An error is that the system does not make it
    /// (`Failed`), or want of memory.
    pub fn create(&mut self, name: &[u8]) -> Result<(), Fault> {
        if let Some(place) = place_of(&self.files, name) {
            self.files.swap_remove(place);
        }
        let _place = self.open_at_place(name, Opening::Empty)?;
        Ok(())
    }

    /// Writes some bytes at the end of a file, which stays open. An error is that the system does not open it or takes
    /// nothing (`Failed`), or want of memory.
    pub fn append(&mut self, name: &[u8], piece: &[u8]) -> Result<usize, Fault>
        requires { 0 < length piece.now }

        ensures within { IfOk result (λ n. (0 < n) × (n ≤ length piece.now)) }
    {
        let place = match place_of(&self.files, name) {
            Some(place) => place,
            None => self.open_at_place(name, Opening::AtEnd)?,
        };
        let opened = &mut self.files[place];
        match write_some(&mut opened.file, piece) {
            Some(n) => Ok(n),
            None => Err(Fault::Failed),
        }
    }

    // Opens a file behind those that are open, and answers its place among them. What needs memory and is not the file is
    // made first. Where the system does not open it while others are open, they are closed and it is asked again.
    fn open_at_place(&mut self, name: &[u8], how: Opening) -> Result<usize, Fault>
        ensures { IfOk result (λ place. place < length self.new.files.items) }
    {
        let path = path_of(self.alloc, name)?;
        let name = name.to_vec(self.alloc)?;
        let file = match open(self.rt, path.as_str(), how) {
            Some(file) => file,
            None if self.files.is_empty() => return Err(Fault::Failed),
            None => {
                self.files.clear();
                match open(self.rt, path.as_str(), how) {
                    Some(file) => file,
                    None => return Err(Fault::Failed),
                }
            }
        };
        let place = self.files.len();
        self.files.push(OpenOutput { name, file })?;
        Ok(place)
    }
}

// The place of the open file with this name.
fn place_of<F: Drop>(files: &[OpenOutput<F>], name: &[u8]) -> Option<usize>
    ensures { IfSome result (λ place. place < length files.now) }
{
    files.iter().position(|file| file.name.as_slice() == name)
}

// The path of a file of the folder: the folder, a slash and the name. A name that is no text is a fault.
fn path_of(alloc: Global, name: &[u8]) -> Result<String, Fault> {
    let Ok(name) = str::from_utf8(name) else {
        return Err(Fault::Failed);
    };
    let mut path = String::new(alloc);
    path.push_str(FOLDER)?;
    path.push_str("/")?;
    path.push_str(name)?;
    Ok(path)
}

// Opens a file of the folder, which is made where it is not there; None where the system does not.
fn open<R: Files>(rt: &R, path: &str, how: Opening) -> Option<R::File> {
    if !has_folder(rt) {
        return None;
    }
    match open_file(rt, path, how) {
        Ok(file) => Some(file),
        Err(_) => None,
    }
}

// Makes the folder where it is not there, and answers whether it is there.
fn has_folder<R: Files>(rt: &R) -> bool {
    match fs::create_dir(rt, FOLDER) {
        Ok(()) => true,
        Err(error) => error.kind() == ErrorKind::AlreadyExists,
    }
}

// Opens a file, which is made where it is not there.
fn open_file<R: Files>(rt: &R, path: &str, how: Opening) -> io::Result<R::File> {
    match how {
        Opening::Empty => File::create(rt, path),
        Opening::AtEnd => {
            let mut options = OpenOptions::new();
            options.append(true);
            options.create(true);
            options.open(rt, path)
        }
    }
}
