//! Why a text was not written.
//! The rules: docs/COMMANDS.md, "tobin and tocsv".

use kt_cells::TableStop;
use kt_out::Fault;

/// Why the text of a file was not written, or not to its end.
#[derive(Drop)]
pub enum TextStop {
    /// The file is refused, or no memory was there: nothing is written.
    Refused(TableStop),
    /// A write failed, or no memory was there: a front of the text is written, maybe nothing.
    Unwritten(Fault),
}
