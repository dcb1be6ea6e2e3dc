// There and back: a line into its bands and the bands into a cleared output, which restores the line exactly where that can be.
#![tactic(auto)]

ghost use Rattle.std.specs.Prelude.{◌≡◌};
ghost use Rattle.exact.specs.declared.BackError.TheVariants.{Analysis, Synthesis};
ghost use Rattle.exact.specs.Backs.{answer_of, Returned};

use analysis::lists::analyse;
use analysis::{AnalysisError, analysis_answer};
use bank::Bank;
use numbers::real::Real;
use synthesis::lists::synthesise;
use synthesis::work::clear;
use synthesis::{SynthesisError, synthesis_answer};

// Which way was refused, and how.
#[derive(Clone, Copy, Debug, PartialEq, Eq)]
pub enum BackError {
    Analysis(AnalysisError),
    Synthesis(SynthesisError),
}

impl From<AnalysisError> for BackError {
    ghost from_gives = { λ e r. r ≡ Analysis e };

    fn from(e: AnalysisError) -> BackError {
        BackError::Analysis(e)
    }
}

impl From<SynthesisError> for BackError {
    ghost from_gives = { λ e r. r ≡ Synthesis e };

    fn from(e: SynthesisError) -> BackError {
        BackError::Synthesis(e)
    }
}

// The tests, on lengths alone: those of the way there, then those of the way back.
#[tactic(auto, using(crate::proofs::Calls::there_refused, crate::proofs::Calls::back_refused, crate::proofs::Calls::both_done))]
pub fn back_answer(
    f: usize,
    n: usize,
    approx: usize,
    detail: usize,
    scratch: usize,
    out: usize,
) -> Result<(), BackError>
    ensures { result ≡ answer_of f n approx detail scratch out }
{
    analysis_answer(f, n, approx, detail, scratch)?;
    synthesis_answer(f, approx, detail, out)?;
    Ok(())
}

// Both ways, one after the other, by the lists of one bank: each entry would copy its pair once more.
pub fn there_and_back<R: Real>(
    bank: Bank<R>,
    line: &[R],
    approx: &mut [R],
    detail: &mut [R],
    scratch: &mut [R],
    out: &mut [R],
) -> Result<(), BackError>
    ensures { Returned R.format (R.floats bank.low) (R.floats bank.high) (R.floats bank.lowback) (R.floats bank.highback) bank.taps bank.border (R.floats line.now) (R.floats approx.old) (R.floats detail.old) (R.floats scratch.old) (R.floats out.old)
        result (R.floats approx.new) (R.floats detail.new) (R.floats scratch.new) (R.floats out.new) }
{
    back_answer(
        bank.taps,
        line.len(),
        approx.len(),
        detail.len(),
        scratch.len(),
        out.len(),
    )?;
    let f = bank.taps;
    let border = bank.border;
    let low = &bank.low;
    let high = &bank.high;
    analyse(low, high, f, border, line, approx, detail, scratch)?;
    clear(out);
    let lowback = &bank.lowback;
    let highback = &bank.highback;
    synthesise(lowback, highback, f, approx, detail, out)?;
    Ok(())
}
