//! A made-up set, and the lines of files.
//! The rule: docs/PROVING.md, "Tests".

use crate::failure::Failure;
use kt_counted::CountedOutputs;
use kt_gen::{generate, push_file_lines};
use kt_load::{file_name, load_order};
use kt_money::{Bytes, OutOfMemory};
use kt_out::{Inputs, Outputs, SureInputs};
use kt_outputs::Named;
use kt_rec::Name;
use std::alloc::AllocGlobal;
use std::io::Print;
use std::str;

/// The 64 bits of FNV-1a.
fn digest(bytes: &[u8]) -> u64 {
    bytes.iter().fold(14_695_981_039_346_656_037, |hash, byte| {
        (hash ^ u64::from(*byte)).wrapping_mul(1_099_511_628_211)
    })
}

/// Prints the digest of a file, where it is there.
fn print_digest<R: AllocGlobal + Print>(
    rt: &R,
    inputs: &mut SureInputs,
    name: &[u8],
) -> Result<(), Failure> {
    let size = match inputs.size(name) {
        Ok(size) if 0 < size && size < 1_000_000 => size,
        _ => return Ok(()),
    };
    let mut room = vec![in rt.alloc(); 0u8; size as usize]?;
    match inputs.read_at(name, 0, &mut room) {
        Ok(_) => {
            println!(rt;
                "{}: {}",
                str::from_utf8(name).unwrap_or("?"),
                digest(&room)
            )?;
            Ok(())
        }
        Err(_) => Err(Failure),
    }
}

/// Prints the digest of each file of a set of seed 7, with 23 items and 5 events, in the order of loading.
pub(crate) fn print_set<R: AllocGlobal + Print>(rt: &R) -> Result<(), Failure> {
    let alloc = rt.alloc();
    let mut inputs = generate(alloc, 7, 23, 5)?;
    for id in load_order() {
        let name = file_name(alloc, id)?;
        print_digest(rt, &mut inputs, name.as_slice())?;
    }
    Ok(())
}

/// A file of this name.
#[derive(Clone, Copy)]
struct Called(&'static [u8]);

impl Named for Called {
    ghost name = { λ called. called.0.now };

    fn push_name(&self, out: &mut Name) -> Result<(), OutOfMemory> {
        out.append(self.0)
    }
}

/// Prints the lines of two files, of which the first was not made.
pub(crate) fn print_file_lines<R: AllocGlobal + Print>(rt: &R) -> Result<(), Failure> {
    let alloc = rt.alloc();
    let mut outputs = CountedOutputs::new(alloc);
    if outputs.append(b"a.csv", b"event_id\n1\n2").is_err() {
        return Err(Failure);
    }
    let mut out = Bytes::new(alloc);
    let files = [Called(b"b.csv"), Called(b"a.csv")];
    push_file_lines(alloc, &mut out, &files, &outputs)?;
    print!(rt; "{}", str::from_utf8(out.as_slice()).unwrap_or("?"))?;
    Ok(())
}
