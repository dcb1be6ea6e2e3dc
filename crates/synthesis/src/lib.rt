// Synthesis of one line.
#![tactic(auto)]

pub mod lists;
pub mod work;

ghost use Rattle.std.specs.Prelude.{◌≡◌};
ghost use Rattle.synthesis.specs.Syntheses.{answer_of, Synthesised};

use bank::Bank;
use bank::lengths::idwt_length;
use bank::sizes::bad_taps;
use numbers::LONGEST;
use numbers::real::Real;

// Why bands are not joined.
#[derive(Clone, Copy, Debug, PartialEq, Eq)]
pub enum SynthesisError {
    ApproxDetailsNotMatches { approx: usize, detail: usize },
    OutputSizeIsNotValid { have: usize, need: usize },
    ZeroedBaseSize,
    Limit,
    Taps,
}

// The tests, on lengths alone.
pub fn synthesis_answer(
    f: usize,
    approx: usize,
    detail: usize,
    out: usize,
) -> Result<(), SynthesisError>
    ensures { result ≡ answer_of f approx detail out }
{
    if bad_taps(f) {
        return Err(SynthesisError::Taps);
    }
    if LONGEST < approx {
        return Err(SynthesisError::Limit);
    }
    if LONGEST < detail {
        return Err(SynthesisError::Limit);
    }
    if approx != detail {
        return Err(SynthesisError::ApproxDetailsNotMatches { approx, detail });
    }
    if 2 * approx + 2 <= f {
        return Err(SynthesisError::ZeroedBaseSize);
    }
    let need = idwt_length(approx, f);
    if out != need {
        return Err(SynthesisError::OutputSizeIsNotValid { have: out, need });
    }
    Ok(())
}

// Both bands joined onto what the output held.
pub fn synthesise<R: Real>(
    bank: Bank<R>,
    approx: &[R],
    detail: &[R],
    out: &mut [R],
) -> Result<(), SynthesisError>
    ensures { Synthesised R.format (R.floats bank.lowback) (R.floats bank.highback) bank.taps (R.floats approx.now) (R.floats detail.now) (R.floats out.old) result (R.floats out.new) }
{
    let f = bank.taps;
    // lent in place, the whole bank would be copied
    let low = bank.lowback;
    let high = bank.highback;
    lists::synthesise(&low, &high, f, approx, detail, out)
}
