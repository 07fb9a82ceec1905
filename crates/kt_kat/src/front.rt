//! What a file is by its first byte.
//! The rules: docs/COMMANDS.md, "kat".
ghost use Rattle.std.specs.Prelude.{◌≡◌, IfOk, IfSome};
ghost use Rattle.kt_loop.specs.InputFile.{IsSized, file_bytes};
ghost use Rattle.kt_kat.specs.Found.{LooksInto};
ghost use Rattle.kt_kat.specs.FileKinds.{kind_by as kind_of_byte, kind_at_front};

use kt_loop::read_piece;
use kt_out::{Fault, Inputs};

/// What files are: bytes of any kind, or streams of one kind.
#[derive(Clone, Copy)]
pub enum FileKind {
    /// Bytes of any kind.
    Plain,
    /// Streams of damage distributions.
    Cdf,
    /// Streams of ground-up losses.
    Gul,
    /// Streams of losses after terms.
    Loss,
    /// Streams of the losses of summaries.
    Summary,
}

/// What a file is whose first byte this is.
fn kind_by(byte: u8) -> FileKind
    ensures { result ≡ kind_of_byte byte }
{
    match byte {
        0 => FileKind::Cdf,
        1 => FileKind::Gul,
        2 => FileKind::Loss,
        3 => FileKind::Summary,
        _ => FileKind::Plain,
    }
}

/// What a file of so many bytes is by its first byte.
pub(crate) fn kind_of_file<I: Inputs>(
    inputs: &mut I,
    name: &[u8],
    size: u64,
) -> Result<FileKind, Fault>
    requires sized { IsSized (I.state inputs.old).held name.now size }

    ensures value { IfOk result (λ kind. IfSome (file_bytes (I.state inputs.old).held name.now) (λ bytes. kind ≡ kind_at_front bytes)) }
    ensures counts { LooksInto (I.state inputs.old) (I.state inputs.new) result }
{
    if size == 0 {
        return Ok(FileKind::Plain);
    }
    let mut front = [0; 1];
    match read_piece(inputs, name, size, 0, &mut front) {
        Ok(_) => Ok(kind_by(front[0])),
        Err(fault) => Err(fault),
    }
}
