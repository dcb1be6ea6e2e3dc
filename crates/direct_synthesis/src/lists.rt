// Synthesis by tap lists, for an entry that has a bank and for one that has the caller's own lists.
ghost use Rattle.std.specs.Prelude.{length};
ghost use Rattle.std.specs.Float.{binary64};
ghost use Rattle.bank.specs.Lengths.{Counted};
ghost use Rattle.synthesis.specs.Syntheses.{Synthesised};

use crate::work::gather_all;
use synthesis::{SynthesisError, synthesis_answer};

// Both bands joined onto what the output held.
pub fn synthesise<'a>(
    low: &'a [f64],
    high: &'a [f64],
    f: usize,
    approx: &[f64],
    detail: &[f64],
    out: &mut [f64],
) -> Result<(), SynthesisError>
    requires { Counted f (length low.now) (length high.now) }
    ensures { Synthesised binary64 low.now high.now f approx.now detail.now out.old result out.new }
{
    synthesis_answer(f, approx.len(), detail.len(), out.len())?;
    gather_all(low, high, f, approx, detail, out);
    Ok(())
}
