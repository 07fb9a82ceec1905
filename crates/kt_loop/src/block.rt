//! The block in which the source is read.
//! The rule: docs/STREAMS.md, "Tools over streams".
ghost use Rattle.std.specs.Prelude.{◌≡◌, ◌+◌, ◌≤◌, length, take, OnOk, IfOk};

use std::alloc::{AllocError, Global};

/// The bytes that one read asks for at the least.
pub const BLOCK: usize = 65_536;

/// A block of so many zeros. An error is want of memory.
pub fn zeros(alloc: Global, size: usize) -> Result<Vec<u8>, AllocError>
    ensures { IfOk result (λ block. length block.items ≡ size) }
{
    let mut block = Vec::new(alloc);
    block.resize(size, 0)?;
    Ok(block)
}

/// Copies bytes over the front of a block.
fn put_front(block: &mut [u8], bytes: &[u8])
    requires { length bytes.now ≤ length block.old }
    ensures { take (length bytes.now) block.new ≡ bytes.now }
{
    block[..bytes.len()].copy_from_slice(bytes);
}

/// Makes a block begin with some bytes, and have room behind them. An error is want of memory; nothing is said of the
/// block then.
pub fn begin_block(block: &mut Vec<u8>, bytes: &[u8]) -> Result<(), AllocError>
    ensures front { OnOk result (take (length bytes.now) block.new.items ≡ bytes.now) }
    ensures room { OnOk result (length bytes.now + 65536 ≤ length block.new.items) }
{
    let size = bytes.len() + BLOCK;
    if block.len() < size {
        block.resize(size, 0)?;
    }
    put_front(block.as_mut_slice(), bytes);
    Ok(())
}
