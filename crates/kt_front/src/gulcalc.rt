//! The tool that makes the ground-up losses of a stream of damage distributions.
//! The rules: docs/COMMANDS.md, "gulcalc".
ghost use Rattle.std.specs.Prelude.{◌≡◌, ◌≤◌, true, length};
ghost use Rattle.kt_ends.specs.Ending.{StreamToolEnds};
ghost use Rattle.kt_keys.specs.Refusals.{is_loaded};
ghost use Rattle.kt_rec.specs.declared.table.Table.TheVariants as table;
ghost use Rattle.kt_front.specs.GulOutcome.{gul_outcome};
ghost use Rattle.kt_loop.specs.Running.{stream_uses};

use kt_ends::ToolStop;
use kt_gul::put_ground_up;
use kt_loop::laws::runs_give_their_text;
use kt_loop::{RunStage, run_by_run};
use kt_money::Bytes;
use kt_out::{Sink, Source};
use kt_stream::{Cdf, CdfReader, Head, Placed, StreamKind, put_head};
use kt_tables::Portfolio;
use std::alloc::Global;

/// The ground-up losses of the runs of a stream of distributions, by a portfolio whose damage bins bound theirs.
#[derive(Drop)]
struct GroundUp<'a> {
    alloc: Global,
    portfolio: &'a Portfolio,
    samples: u32,
    cut: bool,
}

impl<'a> RunStage<Cdf, ()> for GroundUp<'a> {
    ghost use Rattle.std.specs.Prelude.{◌≡◌, ◌≤◌, length, true};
    ghost use Rattle.kt_stream.specs.Bins.{cdf_shape};
    ghost use Rattle.kt_keys.specs.Refusals.{is_loaded};
    ghost use Rattle.kt_rec.specs.declared.table.Table.TheVariants as table;
    ghost use Rattle.kt_front.specs.GulOutcome.{GulMade, made_runs};

    ghost Kept = { GulMade };

    ghost runs = { made_runs };

    ghost is_at = { λ made stage _. (stage.samples ≡ made.0.0) × (stage.cut ≡ made.0.1) × (stage.portfolio.now ≡ made.1) };

    ghost is_ready = { λ _ _ stage _. (1 ≤ stage.samples) × (stage.samples ≤ 1000) × (is_loaded stage.portfolio.now.need 0 table.Random ≡ true) };

    ghost shape = { λ stage. cdf_shape (length stage.portfolio.now.rows.damage_bin_dict) };

    ghost inputs = { λ others _. others };

    fn open(&mut self, _beside: &mut (), _head: Head, out: &mut Bytes) -> Result<(), ToolStop> {
        let head = Head {
            samples: self.samples,
            set: 0,
        };
        put_head(out, StreamKind::Gul, head)?;
        Ok(())
    }

    fn judge(
        &mut self,
        _beside: &mut (),
        _head: Head,
        _run: &[Placed<Cdf>],
        _placed: &Placed<Cdf>,
    ) -> Result<(), ToolStop> {
        Ok(())
    }

    fn close(
        &mut self,
        _beside: &mut (),
        _head: Head,
        run: &[Placed<Cdf>],
        out: &mut Bytes,
    ) -> Result<(), ToolStop> {
        if run.is_empty() {
            return Ok(());
        }
        let event = run[0].entry.event;
        put_ground_up(
            self.alloc,
            self.portfolio,
            self.samples,
            self.cut,
            event,
            run,
            out,
        )?;
        Ok(())
    }
}

/// How many damage bins there are.
fn bin_count(portfolio: &Portfolio) -> u32
    requires few { length portfolio.now.rows.damage_bin_dict ≤ 1000 }
    ensures { result ≡ length portfolio.now.rows.damage_bin_dict }
{
    portfolio.damage_bins().len() as u32
}

/// Reads a stream of distributions and writes their ground-up losses by a portfolio. An error is what refuses the
/// stream, a fault of the source or of the sink, or want of memory: a refused stream has written the output of what
/// came before the refused place, and any other error leaves some front of the output.
pub fn write_ground_up<S: Source, K: Sink>(
    alloc: Global,
    samples: u32,
    cut: bool,
    portfolio: &Portfolio,
    source: &mut S,
    sink: &mut K,
) -> Result<(), ToolStop>
    requires random { is_loaded portfolio.now.need 0 table.Random ≡ true }
    requires bins { is_loaded portfolio.now.need 0 table.DamageBinDict ≡ true }
    requires some { 1 ≤ samples }
    requires few { samples ≤ 1000 }
    ensures { StreamToolEnds (stream_uses true) (λ _ bytes. gul_outcome samples cut portfolio.now.rows bytes) (S.state source.old) (S.state source.new) (K.state sink.old) (K.state sink.new) result }
{
    portfolio.keeps_damage();
    runs_give_their_text::<Head, Cdf, (u32, bool)>();
    runs_give_their_text::<Head, Cdf, ((u32, bool), Portfolio)>();
    let mut reader = CdfReader::new(alloc, bin_count(portfolio));
    let stage = GroundUp {
        alloc,
        portfolio,
        samples,
        cut,
    };
    run_by_run(alloc, &mut reader, stage, &mut (), source, sink)
}
