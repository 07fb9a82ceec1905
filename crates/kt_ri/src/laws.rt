//! Theorems about what stages leave of the losses of a run, as functions with an empty body.
//! The rule: docs/FINANCIAL_MODULE.md, "Reinsurance".
ghost use Rattle.std.specs.Prelude.{◌≡◌, ℕ, Bool, true, List, All, map};
ghost use Rattle.std.specs.List.Sorted.{IsStrictlyIncreasing};
ghost use Rattle.kt_stream.specs.Losses.{IsLoss};
ghost use Rattle.kt_stream.specs.declared.entry.LossRecord.{LossRecord};
ghost use Rattle.kt_runs.specs.RunLosses.{AreWithin};
ghost use Rattle.kt_fmtree.specs.Tree.{Tree};
ghost use Rattle.kt_ri.specs.Reinsurance.{reinsured};

/// What stages leave are records that a stream may have, where those of the run are, and keeps the limit of a run: its losses add
/// to at most 10^16 cents at each sidx.
pub fn net_losses_are_records_of_a_stream()
    ensures good { (trees : List Tree) (samples : ℕ) (records : List LossRecord) → All (IsLoss samples) records → AreWithin records → All (IsLoss samples) (reinsured trees samples records) }
    ensures within { (trees : List Tree) (samples : ℕ) (records : List LossRecord) → AreWithin records → AreWithin (reinsured trees samples records) }
{}

/// They are a run of their own: of the event of the records, and each id once, by rising id, where those of the records are. Their
/// ids are ids of the records, so what is known of these is known of them.
pub fn net_losses_are_a_run()
    ensures event { (trees : List Tree) (samples event : ℕ) (records : List LossRecord) → All (λ entry. entry.event ≡ event) records → All (λ entry. entry.event ≡ event) (reinsured trees samples records) }
    ensures rising { (trees : List Tree) (samples : ℕ) (records : List LossRecord) → IsStrictlyIncreasing (map (λ entry. entry.id) records) → IsStrictlyIncreasing (map (λ entry. entry.id) (reinsured trees samples records)) }
    ensures known { (trees : List Tree) (samples : ℕ) (known : ℕ → Bool) (records : List LossRecord) → All (λ entry. known entry.id ≡ true) records → All (λ entry. known entry.id ≡ true) (reinsured trees samples records) }
{}
