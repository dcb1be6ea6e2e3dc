// One line by the second engine, for C.
ghost use Rattle.std.specs.Float.{binary64};
ghost use Rattle.isferghul.specs.Lines.{DirectTold, SynthesisTold};

use bank::taps::taps_of;
use direct_analysis::lists::analyse;
use direct_synthesis::lists::synthesise;
use line_telling::told;
use telling::borders::{border_of, no_border};
use telling::told::one;

pub fn isferghul_analyse_directly<'a>(
    border: usize,
    low: &'a [f64],
    high: &'a [f64],
    line: &[f64],
    approx: &mut [f64],
    detail: &mut [f64],
    carried: &mut [usize; 2],
) -> u64
    ensures { DirectTold binary64 border low.now high.now line.now approx.old detail.old carried.old
        result approx.new detail.new carried.new }
{
    if no_border(border) {
        return one(26, border, carried);
    }
    let f = taps_of(low.len(), high.len());
    let b = border_of(border);
    let answer = analyse(low, high, f, b, line, approx, detail);
    told::analysis(answer, carried)
}

// No border: synthesis reads none.
pub fn isferghul_synthesise_directly<'a>(
    low: &'a [f64],
    high: &'a [f64],
    approx: &[f64],
    detail: &[f64],
    out: &mut [f64],
    carried: &mut [usize; 2],
) -> u64
    ensures { SynthesisTold binary64 low.now high.now approx.now detail.now out.old carried.old result out.new carried.new }
{
    let f = taps_of(low.len(), high.len());
    let answer = synthesise(low, high, f, approx, detail, out);
    told::synthesis(answer, carried)
}
