//! What each tool takes: a row a tool.
//! The rules: docs/COMMANDS.md, "Words".
ghost use Rattle.std.specs.Prelude.{◌≡◌};
ghost use Rattle.kt_words.specs.Table.{options_of, plain_of, rules_of};

use crate::rows::Condition::{Absent, Always, Net, NoPeriods, NotNet, Periods, Zero};
use crate::rows::Form::{Dash, FileName, Flag, Losses, Number, Stage, TableName};
use crate::rows::OptionRow::{Free, Needed, OneOf};
use crate::rows::Rule::{NeededWhere, RefusedWhere};
use crate::rows::{OptionRow, PlainRow, Rule};
use crate::tool::Tool;

const GULCALC: [OptionRow; 4] = [
    Needed(b'S', Number(1, 1_000)),
    Needed(b'a', Number(0, 1)),
    Needed(b'r', Flag),
    Needed(b'i', Dash),
];

const FMCALC: [OptionRow; 3] = [
    Needed(b'a', Number(0, 2)),
    Free(b'n', Flag),
    Free(b'p', Stage),
];

const FMCALC_RULES: [Rule; 2] = [
    RefusedWhere(b'n', Always, Zero(b'a')),
    RefusedWhere(b'p', Always, Absent(b'n')),
];

const SUMMARYCALC: [OptionRow; 12] = [
    OneOf(b'i', b'i', Flag),
    OneOf(b'i', b'f', Flag),
    OneOf(b'1', b'1', Dash),
    OneOf(b'1', b'2', Dash),
    OneOf(b'1', b'3', Dash),
    OneOf(b'1', b'4', Dash),
    OneOf(b'1', b'5', Dash),
    OneOf(b'1', b'6', Dash),
    OneOf(b'1', b'7', Dash),
    OneOf(b'1', b'8', Dash),
    OneOf(b'1', b'9', Dash),
    Free(b'a', Number(0, 2)),
];

const HEADING: [OptionRow; 1] = [Free(b's', Flag)];

const LECCALC: [OptionRow; 9] = [
    Needed(b'r', Flag),
    OneOf(b'F', b'F', Dash),
    OneOf(b'F', b'f', Dash),
    OneOf(b'F', b'S', Dash),
    OneOf(b'F', b's', Dash),
    OneOf(b'F', b'W', Dash),
    OneOf(b'F', b'w', Dash),
    OneOf(b'F', b'M', Dash),
    OneOf(b'F', b'm', Dash),
];

const TOBIN: [OptionRow; 1] = [Free(b'P', Number(1, 100_000))];

const TOBIN_RULES: [Rule; 2] = [
    NeededWhere(b'P', Periods),
    RefusedWhere(b'P', Always, NoPeriods),
];

const CHAIN: [OptionRow; 7] = [
    Needed(b'S', Number(1, 1_000)),
    Needed(b'l', Losses),
    Free(b'g', Number(0, 1)),
    Free(b'a', Number(0, 2)),
    Free(b'r', Number(1, 9)),
    Free(b'w', Number(1, 16)),
    Free(b'b', Number(1, 4)),
];

const CHAIN_RULES: [Rule; 3] = [
    NeededWhere(b'r', Net(b'l')),
    RefusedWhere(b'r', Always, NotNet(b'l')),
    RefusedWhere(b'a', Zero(b'a'), Net(b'l')),
];

const GEN: [OptionRow; 1] = [Free(b'w', Number(1, 16))];

const NO_OPTIONS: [OptionRow; 0] = [];

const NO_RULES: [Rule; 0] = [];

/// The options of a tool.
pub(crate) fn options(tool: Tool) -> &'static [OptionRow]
    ensures { result.now ≡ options_of tool }
{
    match tool {
        Tool::Gulcalc => &GULCALC,
        Tool::Fmcalc => &FMCALC,
        Tool::Summarycalc => &SUMMARYCALC,
        Tool::Eltcalc | Tool::Pltcalc => &HEADING,
        Tool::Leccalc => &LECCALC,
        Tool::Tobin => &TOBIN,
        Tool::Chain => &CHAIN,
        Tool::Gen => &GEN,
        Tool::Eve | Tool::Getmodel | Tool::Aalcalc | Tool::Kat | Tool::Tocsv => &NO_OPTIONS,
    }
}

/// The plain words of a tool.
pub(crate) fn plain_words(tool: Tool) -> PlainRow
    ensures { result ≡ plain_of tool }
{
    match tool {
        Tool::Eve => PlainRow::Two(Number(0, 4_294_967_295), Number(0, 4_294_967_295)),
        Tool::Kat => PlainRow::Many(FileName),
        Tool::Tobin | Tool::Tocsv => PlainRow::One(TableName),
        Tool::Gen => PlainRow::Three(
            Number(0, 4_294_967_295),
            Number(1, 9_000),
            Number(1, 10_000),
        ),
        _ => PlainRow::Nothing,
    }
}

/// How the options of a tool go with its other words.
pub(crate) fn rules(tool: Tool) -> &'static [Rule]
    ensures { result.now ≡ rules_of tool }
{
    match tool {
        Tool::Fmcalc => &FMCALC_RULES,
        Tool::Tobin => &TOBIN_RULES,
        Tool::Chain => &CHAIN_RULES,
        _ => &NO_RULES,
    }
}
