// Analysis of one line.
#![tactic(auto)]

pub mod lists;
pub mod work;

ghost use Rattle.std.specs.Prelude.{◌≡◌};
ghost use Rattle.analysis.specs.Analyses.{answer_of, Analysed};

use bank::Bank;
use bank::lengths::{dwt_length, padded_length};
use bank::sizes::bad_taps;
use numbers::LONGEST;
use numbers::real::Real;

// Why a line has no bands.
#[derive(Clone, Copy, Debug, PartialEq, Eq)]
pub enum AnalysisError {
    MinFilterSize { n: usize, f: usize },
    ApproxDetailsSize(usize),
    ScratchSize { need: usize, have: usize },
    Limit,
    Taps,
}

// The tests, on lengths alone.
pub fn analysis_answer(
    f: usize,
    n: usize,
    approx: usize,
    detail: usize,
    scratch: usize,
) -> Result<(), AnalysisError>
    ensures { result ≡ answer_of f n approx detail scratch }
{
    if bad_taps(f) {
        return Err(AnalysisError::Taps);
    }
    if LONGEST < n {
        return Err(AnalysisError::Limit);
    }
    if n < f {
        return Err(AnalysisError::MinFilterSize { n, f });
    }
    let m = dwt_length(n, f);
    if approx != m {
        return Err(AnalysisError::ApproxDetailsSize(approx));
    }
    if detail != m {
        return Err(AnalysisError::ApproxDetailsSize(detail));
    }
    let need = padded_length(m, f);
    if scratch < need {
        return Err(AnalysisError::ScratchSize {
            need,
            have: scratch,
        });
    }
    Ok(())
}

// Both bands of a line, by way of the padded line at the front of the scratch.
pub fn analyse<R: Real>(
    bank: Bank<R>,
    line: &[R],
    approx: &mut [R],
    detail: &mut [R],
    scratch: &mut [R],
) -> Result<(), AnalysisError>
    ensures { Analysed R.format (R.floats bank.low) (R.floats bank.high) bank.taps bank.border (R.floats line.now) (R.floats approx.old) (R.floats detail.old) (R.floats scratch.old)
        result (R.floats approx.new) (R.floats detail.new) (R.floats scratch.new) }
{
    let f = bank.taps;
    let border = bank.border;
    // lent in place, the whole bank would be copied
    let low = bank.low;
    let high = bank.high;
    lists::analyse(&low, &high, f, border, line, approx, detail, scratch)
}
