//! The header and the records of a stream of losses.
//! The rules: docs/STREAMS.md, "Records".
ghost use Rattle.std.specs.Prelude.{◌++◌, ◌≡◌, OnErr, OnOk};
ghost use Rattle.kt_losses.specs.Tables.{losses_heading};
ghost use Rattle.kt_stream.specs.Header.{IsHead};
ghost use Rattle.kt_stream.specs.declared.kind.StreamKind.TheVariants.{Gul};

use kt_money::Bytes;
use kt_stream::{Head, StreamKind, put_head};
use std::alloc::AllocError;

/// Appends the header of a stream of losses with the samples of another. An error is want of memory, and nothing is appended then.
pub(crate) fn put_heading(head: Head, out: &mut Bytes) -> Result<(), AllocError>
    requires { IsHead Gul head }
    ensures ok { OnOk result (out.new ≡ out.old ++ losses_heading head) }

    ensures unchanged { OnErr result (out.new ≡ out.old) }
{
    let head = Head {
        samples: head.samples,
        set: 0,
    };
    put_head(out, StreamKind::Loss, head)
}
