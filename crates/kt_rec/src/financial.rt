//! The financial terms: how losses are added up, and what an insurer pays of them.
//! The rule: docs/TABLES.md, "Columns".

/// A row of `fm_programme`: the losses of one unit go into those of another.
#[derive(Clone, Copy)]
pub struct FmProgramme {
    /// The unit whose losses are added.
    pub from_agg_id: u32,
    /// The level at which this is done, 1 to 12.
    pub level_id: u32,
    /// The unit that they are added to.
    pub to_agg_id: u32,
}

/// A row of `fm_policytc`: the terms of a layer of a unit.
#[derive(Clone, Copy)]
pub struct FmPolicytc {
    /// The layer, 1 to 50.
    pub layer_id: u32,
    /// The level, 1 to 12.
    pub level_id: u32,
    /// The unit.
    pub agg_id: u32,
    /// The profile of its terms.
    pub policytc_id: u32,
}

/// A row of `fm_profile`: a calculation rule and its terms. Whether `deductible1` and `limit1` are cents or parts per
/// million goes by the rule.
#[derive(Clone, Copy)]
pub struct FmProfile {
    /// The profile.
    pub policytc_id: u32,
    /// The calculation rule, 1 to 26 or 100.
    pub calcrule_id: u32,
    /// The deductible, in cents or parts per million.
    pub deductible1: u64,
    /// The minimum deductible in cents.
    pub deductible2: u64,
    /// The maximum deductible in cents.
    pub deductible3: u64,
    /// The attachment in cents.
    pub attachment1: u64,
    /// The limit, in cents or parts per million.
    pub limit1: u64,
    /// The first share in parts per million.
    pub share1: u32,
    /// The second share in parts per million.
    pub share2: u32,
    /// The third share in parts per million.
    pub share3: u32,
}

/// A row of `fm_xref`: an output of the financial module.
#[derive(Clone, Copy)]
pub struct FmXref {
    /// The output.
    pub output_id: u32,
    /// The item or unit that it is for.
    pub agg_id: u32,
    /// The layer, 1 to 50.
    pub layer_id: u32,
}
