//! A tool over losses: what it writes at the header, and for each closed run.
//! The rules: docs/STREAMS.md, "Tools over losses".
ghost use Rattle.std.specs.Prelude.{◌≡◌, ◌++◌, List, OnErr, OnOk, map};
ghost use Rattle.std.specs.List.{AllByRecursion};
ghost use Rattle.kt_loop.specs.Runs.{IsRun, loss_key};
ghost use Rattle.kt_losses.specs.Standing.{AreKnown};
ghost use Rattle.kt_runs.specs.RunLosses.{AreWithin};
ghost use Rattle.kt_stream.specs.Header.{IsHead};
ghost use Rattle.kt_stream.specs.Losses.{IsLoss};
ghost use Rattle.kt_stream.specs.declared.kind.StreamKind.TheVariants.{Gul};

use kt_money::Bytes;
use kt_stream::{Head, LossRecord, Placed};
use kt_tables::Portfolio;
use std::alloc::AllocError;

/// What a tool makes of a stream of losses.
pub(crate) trait LossTool {
    ghost use Rattle.kt_losses.specs.Judged.{LossTable};
    ghost use Rattle.kt_tables.specs.Portfolio.{PortfolioRows};

    /// What it makes.
    ghost table: { Self → LossTable };

    /// It serves this portfolio.
    ghost serves: { PortfolioRows → Self → Type 0 };

    /// Whether the losses are those of items, else of outputs.
    fn of_items(&self) -> bool
        ensures { result ≡ (table self.now).items };

    /// Appends what stands at the header. An error is want of memory, and nothing is appended then.
    fn put_heading(&self, head: Head, out: &mut Bytes) -> Result<(), AllocError>
        requires { IsHead Gul head }
        ensures ok { OnOk result (out.new ≡ out.old ++ (table self.now).heading head) }
        ensures unchanged { OnErr result (out.new ≡ out.old) };

    /// Appends what the records of a run give. Their ids are known, and their losses add to at most 10^16 cents at each sidx. An
    /// error is want of memory, and nothing is appended then.
    fn put_run(
        &self,
        portfolio: &Portfolio,
        head: Head,
        run: &[Placed<LossRecord>],
        out: &mut Bytes,
    ) -> Result<(), AllocError>
        requires serves { serves portfolio.now self.now }
        requires head { IsHead Gul head }
        requires good { AllByRecursion (λ placed. IsLoss head.samples placed.entry) run.now }
        requires rising { IsRun loss_key run.now }
        requires known { AreKnown (table self.now).items portfolio.now.rows run.now }
        requires within { AreWithin (map (λ placed. placed.entry) run.now) }
        ensures ok { OnOk result (out.new ≡ out.old ++ (table self.now).text portfolio.now head (map (λ placed. placed.entry) run.now)) }
        ensures unchanged { OnErr result (out.new ≡ out.old) };
}
