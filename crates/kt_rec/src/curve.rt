//! The kinds of exceedance curves.
//! The rules: docs/CALCULATION.md, "Kinds of exceedance curves".

/// Which losses a curve ranks, and how it takes the samples. An aep curve ranks the totals of the periods, an oep curve the
/// greatest losses.
#[derive(Clone, Copy, Debug)]
pub enum Curve {
    /// Letter F: the totals of the mean, and those of all samples in one.
    FullAep,
    /// Letter f: the greatest losses of the mean, and those of all samples in one.
    FullOep,
    /// Letter S: for each period the mean of the samples' totals.
    SampleAep,
    /// Letter s: for each period the mean of the samples' greatest losses.
    SampleOep,
    /// Letter W: for each sample the totals, in a curve of its own.
    WheatAep,
    /// Letter w: for each sample the greatest losses, in a curve of its own.
    WheatOep,
    /// Letter M: for each rank the mean of the samples' totals.
    WheatmeanAep,
    /// Letter m: for each rank the mean of the samples' greatest losses.
    WheatmeanOep,
}
