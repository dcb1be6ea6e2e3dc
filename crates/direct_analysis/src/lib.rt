// Analysis of one line by a plain second engine, written from the rules: each sample is asked for by the border rule, no padded line is built and no scratch is lent.
// Of the first engine it has the tests, the answers and the border rule's definition, and no loop, copy or sum.
#![tactic(auto)]

pub mod lists;
pub mod rule;
pub mod sums;
pub mod work;

ghost use Rattle.std.specs.Prelude.{◌≡◌};
ghost use Rattle.std.specs.Float.{binary64};
ghost use Rattle.direct_analysis.specs.Analyses.{answer_of, Analysed};

use analysis::{AnalysisError, analysis_answer};
use bank::Bank;
use numbers::LONGEST;

// More than any padded line has, so that the last of the tests, which is of a scratch, always passes.
const ROOM: usize = 2 * LONGEST;

// The tests, on lengths alone: those of the first engine without 5.
#[tactic(auto, using(crate::specs::Tested::roomy))]
pub fn direct_answer(f: usize, n: usize, approx: usize, detail: usize) -> Result<(), AnalysisError>
    ensures { result ≡ answer_of f n approx detail }
{
    analysis_answer(f, n, approx, detail, ROOM)
}

// Both bands of a line.
pub fn analyse(
    bank: Bank,
    line: &[f64],
    approx: &mut [f64],
    detail: &mut [f64],
) -> Result<(), AnalysisError>
    ensures { Analysed binary64 bank.low bank.high bank.taps bank.border line.now approx.old detail.old
        result approx.new detail.new }
{
    let f = bank.taps;
    let border = bank.border;
    // lent in place, the whole bank would be copied
    let low = bank.low;
    let high = bank.high;
    lists::analyse(&low, &high, f, border, line, approx, detail)
}
