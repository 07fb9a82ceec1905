//! The order in which the tables are loaded and checked.
//! The rule: docs/TABLES.md, "Files".
ghost use Rattle.std.specs.Prelude.{◌≡◌, All};
ghost use Rattle.kt_rec.specs.LoadOrder.{load_order as order_of_loading};
ghost use Rattle.kt_rec.specs.TableNames.{IsTableId};

use crate::table::{Table, TableId};

/// All tables in the order of loading: the base by number, then the stages 1 to 9, each with its three tables.
pub fn load_order() -> [TableId; 43]
    ensures value { result ≡ order_of_loading }
    ensures ids { All IsTableId result }
{
    macro_rules! at {
        ($stage:expr, $table:ident) => {
            TableId {
                stage: $stage,
                table: Table::$table,
            }
        };
    }
    [
        at!(0, Events),
        at!(0, Items),
        at!(0, Coverages),
        at!(0, Footprint),
        at!(0, FootprintIdx),
        at!(0, Vulnerability),
        at!(0, DamageBinDict),
        at!(0, Random),
        at!(0, FmProgramme),
        at!(0, FmPolicytc),
        at!(0, FmProfile),
        at!(0, FmXref),
        at!(0, GulSummaryXref),
        at!(0, FmSummaryXref),
        at!(0, Occurrence),
        at!(0, ReturnPeriods),
        at!(1, FmProgramme),
        at!(1, FmPolicytc),
        at!(1, FmProfile),
        at!(2, FmProgramme),
        at!(2, FmPolicytc),
        at!(2, FmProfile),
        at!(3, FmProgramme),
        at!(3, FmPolicytc),
        at!(3, FmProfile),
        at!(4, FmProgramme),
        at!(4, FmPolicytc),
        at!(4, FmProfile),
        at!(5, FmProgramme),
        at!(5, FmPolicytc),
        at!(5, FmProfile),
        at!(6, FmProgramme),
        at!(6, FmPolicytc),
        at!(6, FmProfile),
        at!(7, FmProgramme),
        at!(7, FmPolicytc),
        at!(7, FmProfile),
        at!(8, FmProgramme),
        at!(8, FmPolicytc),
        at!(8, FmProfile),
        at!(9, FmProgramme),
        at!(9, FmPolicytc),
        at!(9, FmProfile),
    ]
}
