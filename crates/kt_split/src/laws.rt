//! What runs of single tools over parts of the event list come to when their streams are joined: theorems, as functions with an
//! empty body.
//! The rules: docs/COMMANDS.md, "Split runs".
ghost use Rattle.std.specs.Prelude.{◌≡◌, ◌≤◌, ◌++◌, ℕ, true, List, [], ◌∷◌, Ok};
ghost use Rattle.kt_event.specs.Needs.{chain_need};
ghost use Rattle.kt_block.specs.Terms.{AreTerms, has_insured, has_net, run_sets, summary_set};
ghost use Rattle.kt_block.specs.declared.terms.Terms.{Terms};
ghost use Rattle.kt_load.specs.Loaded.{loaded};
ghost use Rattle.kt_out.specs.NamedFiles.{FileMap};
ghost use Rattle.kt_rec.specs.Rows.{Rows};
ghost use Rattle.kt_rec.specs.declared.perspective.Perspective.TheVariants.{Gul, Il, Ri};
ghost use Rattle.kt_words.specs.declared.command.Command.TheVariants.{Getmodel};
ghost use Rattle.kt_split.specs.SplitFacts.{GroundUpFacts, LossFacts};
ghost use Rattle.kt_split.specs.RunDone.{EndsDone};
ghost use Rattle.kt_split.specs.RunInParts.{JoinedGiveFiles};
ghost use Rattle.kt_split.specs.SplitRuns.{EachFits, JoinsParts, ground_up_stages, has_set, loss_stages, split_stages};

use kt_alloc::laws::{
    insured_losses_are_a_run, insured_losses_are_records_of_a_stream, insured_losses_keep_the_limit,
};
use kt_eve::parts_make_the_events;
use kt_load::laws::rows_that_load_are_a_portfolio;
use kt_ri::laws::{net_losses_are_a_run, net_losses_are_records_of_a_stream};
use kt_stream::laws::what_is_spelled_is_read;
use kt_stream::{Cdf, EventId, LossRecord, SummaryRecord};

/// What is known of the distributions, the ground-up losses and the summaries of each event of a run whose tables load.
fn ground_up_facts()
    ensures facts { (files : FileMap) (terms : Terms) (rows : Rows) → AreTerms terms → loaded files (chain_need terms) ≡ Ok rows → GroundUpFacts terms rows }
{
    rows_that_load_are_a_portfolio();
    parts_make_the_events();
    what_is_spelled_is_read::<EventId>();
    what_is_spelled_is_read::<Cdf>();
    what_is_spelled_is_read::<LossRecord>();
    what_is_spelled_is_read::<SummaryRecord>();
}

/// What is known of the insured and the net losses too, in a run that has insured losses.
fn loss_facts()
    ensures facts { (files : FileMap) (terms : Terms) (rows : Rows) → AreTerms terms → has_insured terms.last ≡ true → loaded files (chain_need terms) ≡ Ok rows → LossFacts terms rows }
{
    rows_that_load_are_a_portfolio();
    ground_up_facts();
    insured_losses_keep_the_limit();
    insured_losses_are_records_of_a_stream();
    insured_losses_are_a_run();
    net_losses_are_records_of_a_stream();
    net_losses_are_a_run();
}

/// Where a run of all stages has ended with Done, `kat` over the streams of the parts 1 to n of the event list gives the bytes of the
/// stream over the whole list: for distributions, for ground-up losses and for their summaries in each set. Each part's stream has at
/// most 2^30 bytes, and each stream over the whole list at most 2^40.
pub fn parts_of_ground_up_losses_are_joined()
    ensures distributions { (words : List (List ℕ)) (files : FileMap) (terms : Terms) (rows : Rows) → EndsDone words files terms rows → EachFits files (Getmodel ∷ []) → JoinsParts files (Getmodel ∷ []) }
    ensures ground_up { (words : List (List ℕ)) (files : FileMap) (terms : Terms) (rows : Rows) → EndsDone words files terms rows → EachFits files (ground_up_stages terms) → JoinsParts files (ground_up_stages terms) }
    ensures summaries { (words : List (List ℕ)) (files : FileMap) (terms : Terms) (rows : Rows) (set : ℕ) → 1 ≤ set → set ≤ 9 → EndsDone words files terms rows → EachFits files (split_stages terms Gul set) → JoinsParts files (split_stages terms Gul set) }
{
    ground_up_facts();
}

/// The same of a run that has insured losses: for the insured losses, for the net losses behind so many stages, and for the
/// summaries of both in each set, of net losses where the run has some.
pub fn parts_of_losses_are_joined()
    ensures insured { (words : List (List ℕ)) (files : FileMap) (terms : Terms) (rows : Rows) → has_insured terms.last ≡ true → EndsDone words files terms rows → EachFits files (ground_up_stages terms ++ loss_stages Il terms.rule 0) → JoinsParts files (ground_up_stages terms ++ loss_stages Il terms.rule 0) }
    ensures net { (words : List (List ℕ)) (files : FileMap) (terms : Terms) (rows : Rows) (stages : ℕ) → has_insured terms.last ≡ true → has_net terms.last ≡ true → stages ≤ terms.stages → EndsDone words files terms rows → EachFits files (ground_up_stages terms ++ loss_stages Ri terms.rule stages) → JoinsParts files (ground_up_stages terms ++ loss_stages Ri terms.rule stages) }
    ensures insured_summaries { (words : List (List ℕ)) (files : FileMap) (terms : Terms) (rows : Rows) (set : ℕ) → has_insured terms.last ≡ true → 1 ≤ set → set ≤ 9 → EndsDone words files terms rows → EachFits files (split_stages terms Il set) → JoinsParts files (split_stages terms Il set) }
    ensures net_summaries { (words : List (List ℕ)) (files : FileMap) (terms : Terms) (rows : Rows) (set : ℕ) → has_insured terms.last ≡ true → 1 ≤ set → set ≤ 9 → has_net terms.last ≡ true → EndsDone words files terms rows → EachFits files (split_stages terms Ri set) → JoinsParts files (split_stages terms Ri set) }
{
    loss_facts();
}

/// From the summary streams of all parts, joined, of a set of ground-up losses that the run of all stages has, `eltcalc`,
/// `pltcalc`, `aalcalc` and `leccalc` give the text of the file that the run of all stages makes of the set.
pub fn joined_ground_up_summaries_give_the_files()
    ensures tables { (words : List (List ℕ)) (files : FileMap) (terms : Terms) (rows : Rows) (set : ℕ) → 1 ≤ set → set ≤ 9 → has_set (summary_set Gul set) (run_sets rows terms.last) ≡ true → EndsDone words files terms rows → EachFits files (split_stages terms Gul set) → JoinedGiveFiles files terms rows (summary_set Gul set) }
{
    ground_up_facts();
}

/// The same of a set of insured losses, and of one of net losses.
pub fn joined_summaries_give_the_files()
    ensures insured { (words : List (List ℕ)) (files : FileMap) (terms : Terms) (rows : Rows) (set : ℕ) → has_insured terms.last ≡ true → 1 ≤ set → set ≤ 9 → has_set (summary_set Il set) (run_sets rows terms.last) ≡ true → EndsDone words files terms rows → EachFits files (split_stages terms Il set) → JoinedGiveFiles files terms rows (summary_set Il set) }
    ensures net { (words : List (List ℕ)) (files : FileMap) (terms : Terms) (rows : Rows) (set : ℕ) → has_insured terms.last ≡ true → 1 ≤ set → set ≤ 9 → has_net terms.last ≡ true → has_set (summary_set Ri set) (run_sets rows terms.last) ≡ true → EndsDone words files terms rows → EachFits files (split_stages terms Ri set) → JoinedGiveFiles files terms rows (summary_set Ri set) }
{
    loss_facts();
}
