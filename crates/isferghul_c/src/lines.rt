// One line, for C: the exports, each that of its name in `isferghul`.
ghost use Rattle.std.specs.Float.{binary64};
ghost use Rattle.isferghul.specs.Lines.{AnalysisTold, SynthesisTold, ConvolutionTold};

use isferghul::lines;

#[unsafe(no_mangle)]
pub extern "C" fn isferghul_analyse<'a>(
    border: usize,
    low: &'a [f64],
    high: &'a [f64],
    line: &[f64],
    approx: &mut [f64],
    detail: &mut [f64],
    scratch: &mut [f64],
    carried: &mut [usize; 2],
) -> u64
    ensures { AnalysisTold binary64 border low.now high.now line.now approx.old detail.old scratch.old carried.old
        result approx.new detail.new scratch.new carried.new }
{
    lines::isferghul_analyse(border, low, high, line, approx, detail, scratch, carried)
}

#[unsafe(no_mangle)]
pub extern "C" fn isferghul_synthesise<'a>(
    low: &'a [f64],
    high: &'a [f64],
    approx: &[f64],
    detail: &[f64],
    out: &mut [f64],
    carried: &mut [usize; 2],
) -> u64
    ensures { SynthesisTold binary64 low.now high.now approx.now detail.now out.old carried.old result out.new carried.new }
{
    lines::isferghul_synthesise(low, high, approx, detail, out, carried)
}

#[unsafe(no_mangle)]
pub extern "C" fn isferghul_convolve(
    border: usize,
    line: &[f64],
    out: &mut [f64],
    scratch: &mut [f64],
    kernel: &[f64],
    centre: i64,
    carried: &mut [usize; 2],
) -> u64
    ensures { ConvolutionTold binary64 border line.now out.old scratch.old kernel.now centre carried.old
        result out.new scratch.new carried.new }
{
    lines::isferghul_convolve(border, line, out, scratch, kernel, centre, carried)
}
