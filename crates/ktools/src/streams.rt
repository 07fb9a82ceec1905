//! The numbers under which the system keeps the standard streams of the process.
//! The rules: docs/REFUSALS.md, "Statuses".

use std::fs::{File, Files};

/// Takes the numbers of those standard streams that were closed when the program was started, and keeps them as long as what is
/// answered is kept. A file that is opened gets the lowest number that is free, so else a table would be read in the place of
/// standard input, or an output file would have the line that standard error is to have. What takes the numbers is a folder: a
/// read or a write of it fails, as one of a closed stream does. Where all three streams are open three other numbers are taken.
pub fn hold_closed_streams<R: Files>(rt: &R) -> [Option<R::File>; 3] {
    [root_folder(rt), root_folder(rt), root_folder(rt)]
}

/// The root of the file system, opened for reading, where the system has a number for it.
fn root_folder<R: Files>(rt: &R) -> Option<R::File> {
    File::open(rt, "/").ok()
}
