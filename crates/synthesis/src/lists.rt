// Synthesis by tap lists, for an entry that has a bank and for one that has the caller's own lists.
ghost use Rattle.std.specs.Prelude.{length};
ghost use Rattle.bank.specs.Lengths.{Counted};
ghost use Rattle.synthesis.specs.Syntheses.{Synthesised};

use crate::work::join;
use crate::{SynthesisError, synthesis_answer};
use numbers::real::Real;

// Both bands joined onto what the output held.
pub fn synthesise<'a, R: Real>(
    low: &'a [R],
    high: &'a [R],
    f: usize,
    approx: &[R],
    detail: &[R],
    out: &mut [R],
) -> Result<(), SynthesisError>
    requires { Counted f (length low.now) (length high.now) }
    ensures { Synthesised R.format (R.floats low.now) (R.floats high.now) f (R.floats approx.now) (R.floats detail.now) (R.floats out.old) result (R.floats out.new) }
{
    synthesis_answer(f, approx.len(), detail.len(), out.len())?;
    join(low, high, f, approx, detail, out);
    Ok(())
}
