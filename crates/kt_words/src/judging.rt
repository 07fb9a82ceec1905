//! Whether the words of a tool go together, once all were read.
//! The rules: docs/COMMANDS.md, "Words".
ghost use Rattle.std.specs.Prelude.{◌≡◌, ◌<◌, Err};
ghost use Rattle.std.specs.Option.{option_copied};
ghost use Rattle.kt_words.specs.Given.{given_at};
ghost use Rattle.kt_words.specs.Judging.{refused_word, is_zero as zero_at, is_net as net_at, has_periods as periods_are_named, holds as holds_of, lacks_option as option_lacks, lacks_by_rule as rule_lacks, is_missing as word_is_missing, lacks_some, lacks_by_some_rule, refuses as rule_refuses, broken_rule, clash as clash_of, judged, finished};

use crate::given::{Given, GivenWord};
use crate::rows::{Condition, OptionRow, Rule};
use crate::stop::{WordCause, WordStop};
use crate::table::{options, plain_words, rules};
use crate::tool::Tool;
use crate::value::Value;
use kt_rec::{Perspective, Table};

/// The refusal of a word by its number.
pub(crate) fn refused<T>(word: u32, cause: WordCause) -> Result<T, WordStop>
    ensures { result ≡ refused_word word cause }
{
    Err(WordStop { word, cause })
}

/// Whether the option of this letter has the value 0.
fn is_zero(given: &Given, letter: u8) -> bool
    ensures { result ≡ zero_at (given_at given.now letter) }
{
    match given.option(letter) {
        Some(
            GivenWord {
                value: Value::Number(number),
                ..
            },
        ) => number == 0,
        _ => false,
    }
}

/// Whether the option of this letter has the value `ri`.
fn is_net(given: &Given, letter: u8) -> bool
    ensures { result ≡ net_at (given_at given.now letter) }
{
    match given.option(letter) {
        Some(
            GivenWord {
                value: Value::Losses(Perspective::Ri),
                ..
            },
        ) => true,
        _ => false,
    }
}

/// Whether the first plain word is the table `occurrence`, whose file says how many periods there are.
fn has_periods(given: &Given) -> bool
    ensures { result ≡ periods_are_named given.now.first }
{
    match given.first {
        Some(
            GivenWord {
                value: Value::Table(Table::Occurrence),
                ..
            },
        ) => true,
        _ => false,
    }
}

/// Whether the words said this.
fn holds(given: &Given, condition: Condition) -> bool
    ensures { result ≡ holds_of given.now condition }
{
    match condition {
        Condition::Always => true,
        Condition::Absent(letter) => !given.has(letter),
        Condition::Zero(letter) => is_zero(given, letter),
        Condition::Net(letter) => is_net(given, letter),
        Condition::NotNet(letter) => !is_net(given, letter),
        Condition::Periods => has_periods(given),
        Condition::NoPeriods => !has_periods(given),
    }
}

/// Whether an option is needed and was not given.
fn lacks_option(given: &Given, tool: Tool, row: OptionRow) -> bool
    ensures { result ≡ option_lacks given.now tool row }
{
    match row {
        OptionRow::Free(_, _) => false,
        OptionRow::Needed(letter, _) => !given.has(letter),
        OptionRow::OneOf(choice, _, _) => !given.has_choice(tool, choice),
    }
}

/// Whether an option is needed by a rule and was not given.
fn lacks_by_rule(given: &Given, rule: Rule) -> bool
    ensures { result ≡ rule_lacks given.now rule }
{
    match rule {
        Rule::NeededWhere(letter, condition) => holds(given, condition) && !given.has(letter),
        Rule::RefusedWhere(_, _, _) => false,
    }
}

/// Whether an option is needed, by itself or by a rule, and was not given.
fn lacks_some_option(given: &Given, tool: Tool) -> bool
    ensures { result ≡ lacks_some given.now tool }
{
    options(tool)
        .iter()
        .any(|row| lacks_option(given, tool, *row))
}

/// Whether a rule needs an option that was not given.
fn lacks_some_by_rule(given: &Given, tool: Tool) -> bool
    ensures { result ≡ lacks_by_some_rule given.now tool }
{
    rules(tool).iter().any(|rule| lacks_by_rule(given, *rule))
}

/// Whether a word is needed and was not given.
fn is_missing(given: &Given, tool: Tool) -> bool
    ensures { result ≡ word_is_missing given.now tool }
{
    plain_words(tool).needs_behind(given.place())
        || lacks_some_option(given, tool)
        || lacks_some_by_rule(given, tool)
}

/// Whether a rule refuses an option that was given.
fn refuses(given: &Given, rule: Rule) -> bool
    ensures { result ≡ rule_refuses given.now rule }
{
    match rule {
        Rule::RefusedWhere(letter, one, other) => {
            given.has(letter) && holds(given, one) && holds(given, other)
        }
        Rule::NeededWhere(_, _) => false,
    }
}

/// The first rule of a tool that refuses an option that was given.
fn first_broken(given: &Given, tool: Tool) -> Option<&'static Rule>
    ensures { option_copied result ≡ broken_rule given.now tool }
{
    rules(tool).iter().find(|rule| refuses(given, **rule))
}

/// The number of the option's word that does not go with the others.
fn clash(given: &Given, tool: Tool) -> Option<u32>
    ensures { result ≡ clash_of given.now tool }
{
    if given.doubled.is_some() {
        return given.doubled;
    }
    match first_broken(given, tool) {
        Some(rule) => given.word_of(rule.letter()),
        None => None,
    }
}

/// What is wrong with words that are right one by one: so many with that of the tool.
fn judge_given(given: &Given, tool: Tool, count: u32) -> Result<(), WordStop>
    requires { count < 4294967295 }
    ensures { result ≡ judged given.now tool count }
{
    if is_missing(given, tool) {
        return refused(count + 1, WordCause::Missing);
    }
    match clash(given, tool) {
        Some(word) => refused(word, WordCause::NotTogether),
        None => Ok(()),
    }
}

/// What is wrong with words that are right one by one; an option whose value is wanted is no last word.
pub(crate) fn finish(given: &Given, tool: Tool, count: u32) -> Result<(), WordStop>
    requires { count < 4294967295 }
    ensures { result ≡ finished given.now tool count }
{
    match given.awaited {
        Some(_) => refused(count, WordCause::NeedsValue),
        None => judge_given(given, tool, count),
    }
}
