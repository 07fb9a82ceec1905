//! What every portfolio keeps, since no check refuses it: methods that do nothing, whose contracts are laws.
//! The rules: docs/CHECKS.md.
ghost use Rattle.std.specs.Prelude.{◌≡◌, ◌<◌, ℕ, true};
ghost use Rattle.kt_rec.specs.declared.table.Table.TheVariants as table;
ghost use Rattle.kt_keys.specs.Refusals.{is_loaded};
ghost use Rattle.kt_checks.specs.KeptChecks.{KeepsKeys, KeepsNames, KeepsOutputs, KeepsProgramme, KeepsSizes};
ghost use Rattle.kt_tables.specs.DamageLaws.{KeepsDamage};
ghost use Rattle.kt_tables.specs.Portfolio.{IsPortfolio, KeepsPeriods};
ghost use Rattle.kt_tables.specs.SummaryLaws.{KeepsSummaries};

use crate::portfolio::Portfolio;

impl Portfolio {
    /// Says what every portfolio keeps.
    pub fn is_valid(&self)
        ensures valid { IsPortfolio self.now }
    {
        let _ = &self.need;
    }

    /// Says the sizes of every portfolio: no table has more rows than its limit (check 1), the insured values of its items
    /// are bounded (5), tables that must have a row have one (10), known samples do not make too many losses (18, 19), and
    /// the distributions of an event are bounded (21).
    pub fn keeps_sizes(&self)
        ensures kept { KeepsSizes self.now.rows self.now.need }
    {
        self.is_valid();
    }

    /// Says that the keys of each table are distinct (check 2), and so are the units and layers of outputs (3).
    pub fn keeps_keys(&self)
        ensures kept { KeepsKeys self.now.rows }
    {
        self.is_valid();
    }

    /// Says that what rows name is there: coverages (check 4), damage bins (7), records of the footprint (9), profiles (14),
    /// what outputs are for (15), and the items and outputs of summaries (17).
    pub fn keeps_names(&self)
        ensures kept { KeepsNames self.now.rows self.now.need }
    {
        self.is_valid();
    }

    /// Says of damage where the damage bins are loaded: they stand in order and are at most 1,000 (check 6), each damage is
    /// of one of them (7), and the probabilities of a vulnerability at an intensity are bounded (8).
    pub fn keeps_damage(&self)
        requires loaded { is_loaded self.now.need 0 table.DamageBinDict ≡ true }
        ensures kept { KeepsDamage self.now.rows }
    {
        self.is_valid();
    }

    /// Says that the programme of the base, at 0, and of each stage is a tree: losses come from what has some (check 11),
    /// go on to the top level (12), and terms have a place (13).
    pub fn keeps_programmes(&self)
        ensures kept { (stage : ℕ) → stage < 10 → KeepsProgramme self.now.rows self.now.need stage }
    {
        self.is_valid();
    }

    /// Says that an output stands for each layer of each item, or by rule 0 of each unit of the top level (check 16).
    pub fn keeps_outputs(&self)
        requires programme { is_loaded self.now.need 0 table.FmProgramme ≡ true }
        requires terms { is_loaded self.now.need 0 table.FmPolicytc ≡ true }
        requires outputs { is_loaded self.now.need 0 table.FmXref ≡ true }
        ensures kept { KeepsOutputs self.now.rows self.now.need.rule }
    {
        self.is_valid();
    }

    /// Says of summaries: what a set has for an id is an id, and no exposure is above 10^14 cents, since the coverages of all
    /// items, one for each item, are worth no more.
    pub fn keeps_summaries(&self)
        ensures kept { KeepsSummaries self.now }
    {
        self.is_valid();
    }

    /// Says of periods where the occurrences are loaded: there are 1 to 100,000, and each occurrence is in one of them
    /// (check 20).
    pub fn keeps_periods(&self)
        requires loaded { is_loaded self.now.need 0 table.Occurrence ≡ true }
        ensures kept { KeepsPeriods self.now.rows }
    {
        self.is_valid();
    }
}
