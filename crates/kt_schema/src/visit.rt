//! Each table, handed to a visitor with the type of its rows and the kinds of its columns: the one match over row types.
//! The rule: docs/TABLES.md, "Columns".
ghost use Rattle.std.specs.Prelude.{◌≡◌, ◌≢◌, ◌<◌};
ghost use Rattle.kt_rec.specs.declared.table.Table.{Table};
ghost use Rattle.kt_schema.specs.Tables.{kinds_of};

use crate::typed_row::TypedRow;
use kt_cells::Kind;
use kt_rec::{
    COVERAGES, Coverage, DAMAGE_BIN_DICT, DamageBin, EVENTS, Event, FM_POLICYTC, FM_PROFILE,
    FM_PROGRAMME, FM_SUMMARY_XREF, FM_XREF, FOOTPRINT_IDX, FmPolicytc, FmProfile, FmProgramme,
    FmSummaryXref, FmXref, FootprintIdx, GUL_SUMMARY_XREF, GulSummaryXref, ITEMS, Item, OCCURRENCE,
    Occurrence, RANDOM, RETURN_PERIODS, Random, ReturnPeriod, Table, VULNERABILITY, Vulnerability,
};

/// What a visitor gives of a table, and what it makes of the world.
pub trait TableVisitor<W, R> {
    // Which tables it takes.
    ghost takes: { Self → Table → Type 0 };

    // What it gives.
    ghost gives: { Self → Table → W → W → R → Type 0 };
}

/// A visitor of the tables of `N` columns.
pub trait RowVisitor<const N: usize, W, R>: TableVisitor<W, R> {
    /// Visits a table whose rows are these, and whose columns have these kinds.
    fn visit<T: TypedRow<N>>(self, world: &mut W, table: Table, kinds: &'static [Kind; N]) -> R
        requires size { N < 100 }
        requires some { 0 < N }
        requires kinds { kinds_of table ≡ kinds.now }
        requires rows { T.table ≡ table }
        requires whole { table ≢ Table.Footprint }
        requires taken { Self.takes self table }
        ensures { Self.gives self table world.old world.new result };
}

/// Hands a table, whose records have all its columns, to a visitor.
#[inline(always)]
pub fn visit_table<
    W,
    R,
    V: RowVisitor<1, W, R>
        + RowVisitor<2, W, R>
        + RowVisitor<3, W, R>
        + RowVisitor<4, W, R>
        + RowVisitor<5, W, R>
        + RowVisitor<10, W, R>,
>(visitor: V, world: &mut W, table: Table) -> R
    requires whole { table ≢ Table.Footprint }
    requires taken { V.takes visitor table }
    ensures { V.gives visitor table world.old world.new result }
{
    match table {
        Table::Footprint => unreachable!(),
        Table::Events => visitor.visit::<Event>(world, table, EVENTS),
        Table::Items => visitor.visit::<Item>(world, table, ITEMS),
        Table::Coverages => visitor.visit::<Coverage>(world, table, COVERAGES),
        Table::FootprintIdx => visitor.visit::<FootprintIdx>(world, table, FOOTPRINT_IDX),
        Table::Vulnerability => visitor.visit::<Vulnerability>(world, table, VULNERABILITY),
        Table::DamageBinDict => visitor.visit::<DamageBin>(world, table, DAMAGE_BIN_DICT),
        Table::Random => visitor.visit::<Random>(world, table, RANDOM),
        Table::FmProgramme => visitor.visit::<FmProgramme>(world, table, FM_PROGRAMME),
        Table::FmPolicytc => visitor.visit::<FmPolicytc>(world, table, FM_POLICYTC),
        Table::FmProfile => visitor.visit::<FmProfile>(world, table, FM_PROFILE),
        Table::FmXref => visitor.visit::<FmXref>(world, table, FM_XREF),
        Table::GulSummaryXref => visitor.visit::<GulSummaryXref>(world, table, GUL_SUMMARY_XREF),
        Table::FmSummaryXref => visitor.visit::<FmSummaryXref>(world, table, FM_SUMMARY_XREF),
        Table::Occurrence => visitor.visit::<Occurrence>(world, table, OCCURRENCE),
        Table::ReturnPeriods => visitor.visit::<ReturnPeriod>(world, table, RETURN_PERIODS),
    }
}
