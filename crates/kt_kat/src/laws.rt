//! What files that are streams come to together: a theorem, as a function with an empty body.
//! The rules: docs/COMMANDS.md, "kat".
ghost use Rattle.std.specs.Prelude.{◌≡◌, ◌≤◌, ◌++◌, ℕ, List, length};
ghost use Rattle.std.specs.List.{flat_map};
ghost use Rattle.kt_out.specs.NamedFiles.{FileMap};
ghost use Rattle.kt_stream.specs.Bins.{IsCdf, cdf_form, cdf_shape};
ghost use Rattle.kt_stream.specs.Grammar.{records_bytes};
ghost use Rattle.kt_stream.specs.Header.{header_bytes};
ghost use Rattle.kt_stream.specs.Losses.{IsLoss, loss_form, loss_shape};
ghost use Rattle.kt_stream.specs.Summary.{IsSummary, summary_form, summary_shape};
ghost use Rattle.kt_stream.specs.declared.entry.Cdf.{Cdf};
ghost use Rattle.kt_stream.specs.declared.entry.LossRecord.{LossRecord};
ghost use Rattle.kt_stream.specs.declared.entry.SummaryRecord.{SummaryRecord};
ghost use Rattle.kt_stream.specs.declared.kind.Head.{Head};
ghost use Rattle.kt_stream.specs.declared.kind.StreamKind.TheVariants as kind;
ghost use Rattle.kt_ends.specs.declared.status.Status.TheVariants.{Done};
ghost use Rattle.kt_loop.specs.Outcome.{gives};
ghost use Rattle.kt_kat.specs.Outcome.{kat_outcome};
ghost use Rattle.kt_kat.specs.StreamFiles.{AreStreamFiles};

use kt_stream::laws::what_is_spelled_is_read;
use kt_stream::{Cdf, LossRecord, SummaryRecord};

/// Where each of at least one name stands for a stream of one kind with one header, of at most 2^30 bytes, `kat` is done and
/// writes the one stream of this header with the records of all, in the order of the names; so for each of the four kinds.
pub fn files_of_streams_are_one_stream()
    ensures distributions { (head : Head) (files : FileMap) (names : List (List ℕ)) (streams : List (List Cdf)) → 1 ≤ length streams → AreStreamFiles Cdf cdf_form (λ shape samples entry. IsCdf shape.bins entry) (cdf_shape 1000) head files names streams → kat_outcome names files ≡ gives Done (header_bytes kind.Cdf head ++ records_bytes cdf_form (flat_map (λ entries. entries) streams)) }
    ensures ground_up { (head : Head) (files : FileMap) (names : List (List ℕ)) (streams : List (List LossRecord)) → 1 ≤ length streams → AreStreamFiles LossRecord loss_form (λ shape samples entry. IsLoss samples entry) (loss_shape kind.Gul) head files names streams → kat_outcome names files ≡ gives Done (header_bytes kind.Gul head ++ records_bytes loss_form (flat_map (λ entries. entries) streams)) }
    ensures losses { (head : Head) (files : FileMap) (names : List (List ℕ)) (streams : List (List LossRecord)) → 1 ≤ length streams → AreStreamFiles LossRecord loss_form (λ shape samples entry. IsLoss samples entry) (loss_shape kind.Loss) head files names streams → kat_outcome names files ≡ gives Done (header_bytes kind.Loss head ++ records_bytes loss_form (flat_map (λ entries. entries) streams)) }
    ensures summaries { (head : Head) (files : FileMap) (names : List (List ℕ)) (streams : List (List SummaryRecord)) → 1 ≤ length streams → AreStreamFiles SummaryRecord summary_form (λ shape samples entry. IsSummary samples entry) summary_shape head files names streams → kat_outcome names files ≡ gives Done (header_bytes kind.Summary head ++ records_bytes summary_form (flat_map (λ entries. entries) streams)) }
{
    what_is_spelled_is_read::<Cdf>();
    what_is_spelled_is_read::<LossRecord>();
    what_is_spelled_is_read::<SummaryRecord>();
}
