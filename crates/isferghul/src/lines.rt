// One line of floats of either width, for C.
ghost use Rattle.isferghul.specs.Lines.{AnalysisTold, SynthesisTold, ConvolutionTold};

use analysis::lists::analyse;
use bank::taps::taps_of;
use convolution::convolve;
use line_telling::told;
use numbers::real::Real;
use synthesis::lists::synthesise;
use telling::borders::{border_of, no_border};
use telling::told::one;

pub fn isferghul_analyse<'a, R: Real>(
    border: usize,
    low: &'a [R],
    high: &'a [R],
    line: &[R],
    approx: &mut [R],
    detail: &mut [R],
    scratch: &mut [R],
    carried: &mut [usize; 2],
) -> u64
    ensures { AnalysisTold R.format border (R.floats low.now) (R.floats high.now) (R.floats line.now) (R.floats approx.old) (R.floats detail.old) (R.floats scratch.old) carried.old
        result (R.floats approx.new) (R.floats detail.new) (R.floats scratch.new) carried.new }
{
    if no_border(border) {
        return one(26, border, carried);
    }
    let f = taps_of(low.len(), high.len());
    let b = border_of(border);
    let answer = analyse(low, high, f, b, line, approx, detail, scratch);
    told::analysis(answer, carried)
}

// No border: synthesis reads none.
pub fn isferghul_synthesise<'a, R: Real>(
    low: &'a [R],
    high: &'a [R],
    approx: &[R],
    detail: &[R],
    out: &mut [R],
    carried: &mut [usize; 2],
) -> u64
    ensures { SynthesisTold R.format (R.floats low.now) (R.floats high.now) (R.floats approx.now) (R.floats detail.now) (R.floats out.old) carried.old result (R.floats out.new) carried.new }
{
    let f = taps_of(low.len(), high.len());
    let answer = synthesise(low, high, f, approx, detail, out);
    told::synthesis(answer, carried)
}

pub fn isferghul_convolve<R: Real>(
    border: usize,
    line: &[R],
    out: &mut [R],
    scratch: &mut [R],
    kernel: &[R],
    centre: i64,
    carried: &mut [usize; 2],
) -> u64
    ensures { ConvolutionTold R.format border (R.floats line.now) (R.floats out.old) (R.floats scratch.old) (R.floats kernel.now) centre carried.old
        result (R.floats out.new) (R.floats scratch.new) carried.new }
{
    if no_border(border) {
        return one(26, border, carried);
    }
    let answer = convolve(border_of(border), line, out, scratch, kernel, centre);
    told::convolution(answer, carried)
}
