//! Why tables are not loaded.
//! The rules: docs/REFUSALS.md, "Order".
ghost use Rattle.std.specs.Prelude.{◌≡◌};
ghost use Rattle.kt_load.specs.Ends.{IsTableEnd};
ghost use Rattle.kt_load.specs.declared.stop.LoadStop.TheVariants.{OutOfMemory};

use kt_cells::TableStop;
use kt_rec::Name;
use std::alloc::AllocError;

/// Why the tables of a run are not loaded: the first that is missing, too large or bad, or that a check refuses.
#[derive(Drop)]
pub enum LoadStop {
    /// There is no file of this name. Comes only where the inputs counted a miss.
    Missing {
        /// The table's file.
        name: Name,
    },
    /// The file has more than 2^30 bytes.
    TooLarge {
        /// The table's file.
        name: Name,
    },
    /// The file is not that of its table.
    Table {
        /// The table's file.
        name: Name,
        /// The first place that is wrong; never want of memory.
        stop: TableStop,
    },
    /// A check refuses the tables.
    Check {
        /// The number of the check.
        number: u32,
        /// The file of the table that is refused.
        name: Name,
        /// Its first row that is refused, counted from 1; 0 where the table as a whole is refused.
        row: u64,
    },
    /// A file could not be read. Comes only where the inputs counted a fault.
    ReadFault,
    /// There is not enough memory.
    OutOfMemory,
}

impl From<AllocError> for LoadStop {
    ghost from_gives = { λ _ stop. stop ≡ OutOfMemory };

    fn from(_error: AllocError) -> LoadStop {
        LoadStop::OutOfMemory
    }
}

impl LoadStop {
    /// The stop for a file of this name that is not that of its table.
    pub(crate) fn of_table(name: Name, stop: TableStop) -> LoadStop
        ensures { IsTableEnd name stop result }
    {
        match stop {
            TableStop::OutOfMemory => LoadStop::OutOfMemory,
            stop => LoadStop::Table { name, stop },
        }
    }
}
