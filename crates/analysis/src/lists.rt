// Analysis by tap lists, for an entry that has a bank and for one that has the caller's own lists.
ghost use Rattle.std.specs.Prelude.{length};
ghost use Rattle.bank.specs.Lengths.{Counted};
ghost use Rattle.analysis.specs.Analyses.{Analysed};

use crate::work::line_bands;
use crate::{AnalysisError, analysis_answer};
use border::Border;
use numbers::real::Real;

// Both bands of a line, by way of the padded line at the front of the scratch.
pub fn analyse<'a, R: Real>(
    low: &'a [R],
    high: &'a [R],
    f: usize,
    border: Border,
    line: &[R],
    approx: &mut [R],
    detail: &mut [R],
    scratch: &mut [R],
) -> Result<(), AnalysisError>
    requires { Counted f (length low.now) (length high.now) }
    ensures { Analysed R.format (R.floats low.now) (R.floats high.now) f border (R.floats line.now) (R.floats approx.old) (R.floats detail.old) (R.floats scratch.old)
        result (R.floats approx.new) (R.floats detail.new) (R.floats scratch.new) }
{
    analysis_answer(f, line.len(), approx.len(), detail.len(), scratch.len())?;
    line_bands(low, high, f, border, line, approx, detail, scratch);
    Ok(())
}
