//! How a refusal of the tables ends a tool.
//! The rules: docs/REFUSALS.md, "Order".
ghost use Rattle.std.specs.Prelude.{◌≡◌};
ghost use Rattle.kt_front.specs.Loading.{load_stop as stop_of, table_stop as stop_of_table};

use kt_cells::TableStop;
use kt_ends::{Refusal, ToolStop};
use kt_load::LoadStop;
use kt_rec::Name;

/// How the refusal of a table ends a tool, by the name of its file.
pub fn table_stop(name: Name, stop: TableStop) -> ToolStop
    ensures { result ≡ stop_of_table name stop }
{
    match stop {
        TableStop::NotProfile => ToolStop::Refused(Refusal::NotProfile { name }),
        TableStop::WrongTable { found } => ToolStop::Refused(Refusal::WrongTable { name, found }),
        TableStop::WrongVersion { found } => {
            ToolStop::Refused(Refusal::WrongVersion { name, found })
        }
        TableStop::CutRecord { row } => ToolStop::Refused(Refusal::CutRecord { name, row }),
        TableStop::Bad { row, column, cause } => ToolStop::Refused(Refusal::Bad {
            name,
            row,
            column,
            cause,
        }),
        TableStop::OutOfMemory => ToolStop::NoMemory,
    }
}

/// How a refusal of the tables ends a tool.
pub fn load_stop(stop: LoadStop) -> ToolStop
    ensures { result ≡ stop_of stop }
{
    match stop {
        LoadStop::Missing { name } => ToolStop::Refused(Refusal::Missing { name }),
        LoadStop::TooLarge { name } => ToolStop::Refused(Refusal::TooLarge { name }),
        LoadStop::Table { name, stop } => table_stop(name, stop),
        LoadStop::Check { number, name, row } => {
            ToolStop::Refused(Refusal::Check { number, name, row })
        }
        LoadStop::ReadFault => ToolStop::ReadFault,
        LoadStop::OutOfMemory => ToolStop::NoMemory,
    }
}
