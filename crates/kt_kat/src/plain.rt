//! The bytes of a file as they are.
//! The rules: docs/COMMANDS.md, "kat".
ghost use Rattle.std.specs.Prelude.{◌≡◌, ◌≤◌, ◌+◌, ◌<◌, take, IfSome};
ghost use Rattle.kt_out.specs.Writing.{Gains};

use crate::file_step::FileStep;
use crate::stops::unread_stop;
use kt_ends::{ToolStop, write_stop};
use kt_loop::{BLOCK, read_piece, zeros};
use kt_out::{Inputs, Sink, write_all};
use std::alloc::Global;

/// Writes the bytes of files.
#[derive(Drop)]
pub(crate) struct PlainBytes;

impl FileStep for PlainBytes {
    ghost use Rattle.kt_ends.specs.declared.status.Status.TheVariants.{Done};
    ghost use Rattle.kt_loop.specs.Outcome.{gives};

    ghost State = { Unit {0} };

    ghost made = { λ _ _ bytes. gives Done bytes };

    ghost next = { λ state _. state };

    ghost is_at = { λ _ _. Unit {0} };

    fn step<I: Inputs, K: Sink>(
        &mut self,
        alloc: Global,
        _number: u32,
        name: &[u8],
        size: u64,
        inputs: &mut I,
        sink: &mut K,
    ) -> Result<(), ToolStop> {
        let Ok(mut block) = zeros(alloc, BLOCK) else {
            return Err(ToolStop::NoMemory);
        };
        let mut at = 0;
        'pieces: while at < size {
            let read = match read_piece(inputs, name, size, at, block.as_mut_slice()) {
                Ok(read) => read,
                Err(fault) => return Err(unread_stop(fault)),
            };
            if let Err(fault) = write_all(sink, &block[..read]) {
                return Err(write_stop(fault));
            }
            at += read as u64;
        }
        Ok(())
    }
}
