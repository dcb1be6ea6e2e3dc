// Analysis by tap lists, for an entry that has a bank and for one that has the caller's own lists.
ghost use Rattle.std.specs.Prelude.{length};
ghost use Rattle.std.specs.Float.{binary64};
ghost use Rattle.bank.specs.Lengths.{Counted};
ghost use Rattle.direct_analysis.specs.Analyses.{Analysed};

use crate::direct_answer;
use crate::work::bands;
use analysis::AnalysisError;
use border::Border;

// Both bands of a line.
pub fn analyse<'a>(
    low: &'a [f64],
    high: &'a [f64],
    f: usize,
    border: Border,
    line: &[f64],
    approx: &mut [f64],
    detail: &mut [f64],
) -> Result<(), AnalysisError>
    requires { Counted f (length low.now) (length high.now) }
    ensures { Analysed binary64 low.now high.now f border line.now approx.old detail.old
        result approx.new detail.new }
{
    direct_answer(f, line.len(), approx.len(), detail.len())?;
    bands(low, high, f, border, line, approx, detail);
    Ok(())
}
