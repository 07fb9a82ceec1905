//! How a run ends.
//! The rules: docs/REFUSALS.md, "Statuses".
ghost use Rattle.std.specs.Prelude.{◌≡◌};
ghost use Rattle.kt_ends.specs.Status.{status_code};

use kt_cells::Cause;
use kt_rec::{CellKey, Name, RowCause};
use kt_stream::StreamStop;
use kt_words::WordStop;

/// Why a run was refused: the first bad record or exceeded limit. A table is named by its file; that of
/// the source is `source`.
#[derive(Drop)]
pub enum Refusal {
    /// The stream is refused.
    Stream(StreamStop),
    /// A record names an id that no item, or no output, has.
    UnknownId {
        /// The byte of the stream at which the id stands, counted from 0.
        byte: u64,
    },
    /// A record takes the losses of one sidx in its run past 10^16 cents.
    LossSum {
        /// The first byte of the record, counted from 0 in the whole stream.
        byte: u64,
    },
    /// A row of the footprint of an event is refused.
    Row {
        /// The event's id.
        event: u32,
        /// The row, counted from 1 within the event.
        row: u64,
        /// What is wrong.
        cause: RowCause,
    },
    /// One loss more would need another cell than the 20,000,000 that are held.
    Cells {
        /// The event whose record is refused.
        event: u32,
        /// How many cells are held.
        held: u64,
    },
    /// A loss takes the total of a period past 10^15 cents.
    Period {
        /// The event whose record is refused.
        event: u32,
        /// The summary, the sidx and the period.
        key: CellKey,
        /// The total before, in cents.
        held: u64,
        /// The loss, in cents.
        more: u64,
    },
    /// The stream in one of several files is refused.
    File {
        /// The number of the file, counted from 1.
        file: u32,
        /// What refuses its stream; bytes are counted in this file.
        stop: StreamStop,
    },
    /// The header of a file is another than that of the first one.
    HeaderDiffers {
        /// The number of the file, counted from 1.
        file: u32,
    },
    /// There is no file of this name. Comes only where the inputs counted a miss.
    Missing {
        /// The table's file.
        name: Name,
    },
    /// A table has more than 2^30 bytes.
    TooLarge {
        /// The table's file.
        name: Name,
    },
    /// A file does not begin as that of a table does.
    NotProfile {
        /// The table's file.
        name: Name,
    },
    /// A file is that of another table.
    WrongTable {
        /// The table's file.
        name: Name,
        /// The number of the table that it has.
        found: u32,
    },
    /// A file has another version.
    WrongVersion {
        /// The table's file.
        name: Name,
        /// The version that it has.
        found: u32,
    },
    /// A file ends within a record.
    CutRecord {
        /// The table's file.
        name: Name,
        /// The row that the record would be, counted from 1.
        row: u64,
    },
    /// A row or a field is wrong.
    Bad {
        /// The table's file.
        name: Name,
        /// The row, counted from 1; 0 for the header of a file.
        row: u64,
        /// The column, counted from 1; 0 for the row as a whole.
        column: u32,
        /// What is wrong.
        cause: Cause,
    },
    /// A check refuses the tables.
    Check {
        /// The number of the check.
        number: u32,
        /// The table's file.
        name: Name,
        /// The first row that is refused, counted from 1; 0 for the table as a whole.
        row: u64,
    },
}

/// How a run ended.
#[derive(Drop)]
pub enum Status {
    /// All input was read, and all output was written.
    Done,
    /// The words are faulty; nothing was read or written.
    Words(WordStop),
    /// The input is refused.
    Refused(Refusal),
    /// The source or a table could not be read.
    ReadFault,
    /// The sink or an output file could not be written.
    WriteFault,
    /// No memory was there.
    NoMemory,
}

impl Status {
    /// The exit status of the program: 0, or 2 to 6 in the order of the variants.
    pub fn code(&self) -> u8
        ensures value { result ≡ status_code self.now }
    {
        match self {
            Status::Done => 0,
            Status::Words(_) => 2,
            Status::Refused(_) => 3,
            Status::ReadFault => 4,
            Status::WriteFault => 5,
            Status::NoMemory => 6,
        }
    }
}
