//! Theorems about the outputs of a portfolio, whoever holds it, as functions that do nothing.
//! The rule: docs/FINANCIAL_MODULE.md, "Insured losses".
ghost use Rattle.std.specs.Prelude.{◌≡◌, ◌≤◌, ℕ, ℤ, nat_eq, true, List, All, map};
ghost use Rattle.std.specs.List.{list_any, sum_by};
ghost use Rattle.std.specs.List.Sorted.{IsStrictlyIncreasing};
ghost use Rattle.kt_rec.specs.declared.financial.FmXref.{FmXref};
ghost use Rattle.kt_rec.specs.declared.table.Table.TheVariants as table;
ghost use Rattle.kt_keys.specs.Refusals.{is_loaded};
ghost use Rattle.kt_stream.specs.Losses.{IsLoss};
ghost use Rattle.kt_stream.specs.declared.entry.LossRecord.{LossRecord};
ghost use Rattle.kt_runs.specs.RunLosses.{AreWithin, event_of, run_loss};
ghost use Rattle.kt_tables.specs.Portfolio.{IsPortfolio, PortfolioRows};
ghost use Rattle.kt_fmtree.specs.Programme.{tree_of};
ghost use Rattle.kt_fmtree.specs.Tree.{Tree, policy_loss};
ghost use Rattle.kt_levels.specs.Shares.{layers_of, taken_loss};
ghost use Rattle.kt_runs.specs.Records.{id_loss, insured_range};
ghost use Rattle.kt_alloc.specs.Insured.{insured_records, layer_sums, output_loss};
ghost use Rattle.kt_alloc.specs.InsuredTables.{HasInsuredTables};
ghost use Rattle.kt_alloc.specs.Whole.{IsSharedOut, outputs_loss, records_loss};

use kt_tables::Portfolio;

/// The outputs of a layer of a top have its whole policy loss, whatever the losses, by the allocation rule that the portfolio is
/// checked for: by rule 0 the output of the top, by rules 1 and 2 those of the items beneath it, each once.
pub fn the_outputs_of_a_layer_have_its_policy_loss()
    ensures conserved { (portfolio : PortfolioRows) → HasInsuredTables portfolio → (losses : ℕ → ℕ) (top layer : ℕ) → list_any (nat_eq top) (tree_of portfolio.rows 0).tops ≡ true → list_any (nat_eq layer) ((tree_of portfolio.rows 0).layers top) ≡ true → outputs_loss (tree_of portfolio.rows 0) losses portfolio.need.rule portfolio.rows.fm_xref top layer ≡ policy_loss (tree_of portfolio.rows 0) losses top layer }
{}

/// The records of a run have at the mean and at each sample what each output has there: an output without a loss has no record,
/// and a record no pair without a loss, and nothing is lost by that.
pub fn the_records_have_what_the_outputs_have()
    ensures value { (portfolio : PortfolioRows) → IsPortfolio portfolio → (rule samples : ℕ) (records : List LossRecord) → All (λ sidx. All (λ output. id_loss (insured_records (tree_of portfolio.rows 0) rule samples portfolio.rows.fm_xref records) sidx output.output_id ≡ output_loss (tree_of portfolio.rows 0) (taken_loss (tree_of portfolio.rows 0) records sidx) rule output.agg_id output.layer_id) portfolio.rows.fm_xref) (insured_range samples) }
{}

/// So the records of the outputs of a layer of a top have the whole of its policy loss, at the mean and at each sample, whatever
/// the records of the run.
pub fn the_records_of_a_layer_have_its_policy_loss()
    ensures conserved { (portfolio : PortfolioRows) → HasInsuredTables portfolio → (samples : ℕ) (records : List LossRecord) (top layer : ℕ) → list_any (nat_eq top) (tree_of portfolio.rows 0).tops ≡ true → list_any (nat_eq layer) ((tree_of portfolio.rows 0).layers top) ≡ true → All (λ sidx. records_loss (tree_of portfolio.rows 0) portfolio.need.rule portfolio.rows.fm_xref (insured_records (tree_of portfolio.rows 0) portfolio.need.rule samples portfolio.rows.fm_xref records) top layer sidx ≡ policy_loss (tree_of portfolio.rows 0) (taken_loss (tree_of portfolio.rows 0) records sidx) top layer) (insured_range samples) }
{
    the_outputs_of_a_layer_have_its_policy_loss();
}

/// All outputs together have the policy losses of all layers, and nothing beside, whatever the losses.
pub fn all_outputs_have_all_policy_losses()
    ensures conserved { (portfolio : PortfolioRows) → HasInsuredTables portfolio → (losses : ℕ → ℕ) → sum_by (λ output. output_loss (tree_of portfolio.rows 0) losses portfolio.need.rule output.agg_id output.layer_id) portfolio.rows.fm_xref ≡ sum_by (λ key. policy_loss (tree_of portfolio.rows 0) losses key.0 key.1) (layers_of (tree_of portfolio.rows 0)) }
{
    the_outputs_of_a_layer_have_its_policy_loss();
}

/// So the records of a run add, at the mean and at each sample, to the policy losses of all layers.
pub fn the_records_of_a_run_have_all_policy_losses()
    ensures conserved { (portfolio : PortfolioRows) → HasInsuredTables portfolio → (samples : ℕ) (records : List LossRecord) → All (λ sidx. run_loss sidx (insured_records (tree_of portfolio.rows 0) portfolio.need.rule samples portfolio.rows.fm_xref records) ≡ sum_by (λ key. policy_loss (tree_of portfolio.rows 0) (taken_loss (tree_of portfolio.rows 0) records sidx) key.0 key.1) (layers_of (tree_of portfolio.rows 0))) (insured_range samples) }
{
    all_outputs_have_all_policy_losses();
}

/// What is allocated of each layer of a run, over the samples, is its policy loss to the cent.
pub fn the_sums_of_layers_are_whole()
    ensures whole { (portfolio : PortfolioRows) → IsPortfolio portfolio → is_loaded portfolio.need 0 table.FmProgramme ≡ true → (rule samples : ℕ) (records : List LossRecord) → All (λ entry. entry.allocated ≡ entry.policy) (layer_sums (tree_of portfolio.rows 0) rule samples records) }
{}

/// So whatever the losses of a run, they are shared out whole, by the allocation rule that the portfolio is checked for.
pub fn losses_are_shared_out_whole()
    ensures { (portfolio : PortfolioRows) → HasInsuredTables portfolio → (samples : ℕ) (losses : List LossRecord) → IsSharedOut portfolio.rows portfolio.need.rule samples losses }
{
    the_outputs_of_a_layer_have_its_policy_loss();
    the_records_of_a_layer_have_its_policy_loss();
    the_sums_of_layers_are_whole();
}

/// Insured losses keep the limit of a run: where its losses add to at most 2 * 10^14 cents at each sidx, they add to at most 10^16.
/// A top has at most 50 layers, no policy loss is above the loss beneath its top, and what lies beneath different tops is apart.
pub fn insured_losses_keep_the_limit()
    ensures within { (portfolio : PortfolioRows) → HasInsuredTables portfolio → (samples : ℕ) (records : List LossRecord) → ((sidx : ℤ) → run_loss sidx records ≤ 200000000000000) → AreWithin (insured_records (tree_of portfolio.rows 0) portfolio.need.rule samples portfolio.rows.fm_xref records) }
{
    all_outputs_have_all_policy_losses();
}

/// The same, of a portfolio that is at hand.
pub fn insured_losses_are_within(portfolio: &Portfolio)
    requires programme { is_loaded portfolio.now.need 0 table.FmProgramme ≡ true }
    requires terms { is_loaded portfolio.now.need 0 table.FmPolicytc ≡ true }
    requires outputs { is_loaded portfolio.now.need 0 table.FmXref ≡ true }
    ensures within { (samples : ℕ) (records : List LossRecord) → ((sidx : ℤ) → run_loss sidx records ≤ 200000000000000) → AreWithin (insured_records (tree_of portfolio.now.rows 0) portfolio.now.need.rule samples portfolio.now.rows.fm_xref records) }
{
    portfolio.is_valid();
    insured_losses_keep_the_limit();
}

/// By any rule they are records that a stream may have, where those of the run are and keep its limit.
pub fn insured_losses_are_records_of_a_stream()
    ensures good { (portfolio : PortfolioRows) → IsPortfolio portfolio → is_loaded portfolio.need 0 table.FmProgramme ≡ true → (rule samples : ℕ) (records : List LossRecord) → All (IsLoss samples) records → AreWithin records → All (IsLoss samples) (insured_records (tree_of portfolio.rows 0) rule samples portfolio.rows.fm_xref records) }
{}

/// They are a run of their own, whatever the tree and the outputs: of the event of the run, each id once, by rising id, which is that
/// of an output.
pub fn insured_losses_are_a_run()
    ensures event { (tree : Tree) (rule samples : ℕ) (outputs : List FmXref) (records : List LossRecord) → All (λ entry. entry.event ≡ event_of records) (insured_records tree rule samples outputs records) }
    ensures rising { (tree : Tree) (rule samples : ℕ) (outputs : List FmXref) (records : List LossRecord) → IsStrictlyIncreasing (map (λ entry. entry.id) (insured_records tree rule samples outputs records)) }
    ensures known { (tree : Tree) (rule samples : ℕ) (outputs : List FmXref) (records : List LossRecord) → All (λ entry. list_any (nat_eq entry.id) (map (λ output. output.output_id) outputs) ≡ true) (insured_records tree rule samples outputs records) }
{}
