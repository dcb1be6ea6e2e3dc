// One line of 32-bit floats, for C: the exports, each that of the same name without its end in `isferghul`.
ghost use Rattle.std.specs.Float.{binary32};
ghost use Rattle.isferghul.specs.Lines.{AnalysisTold, SynthesisTold, ConvolutionTold};

use isferghul::lines;

#[unsafe(no_mangle)]
pub extern "C" fn isferghul_analyse_f32<'a>(
    border: usize,
    low: &'a [f32],
    high: &'a [f32],
    line: &[f32],
    approx: &mut [f32],
    detail: &mut [f32],
    scratch: &mut [f32],
    carried: &mut [usize; 2],
) -> u64
    ensures { AnalysisTold binary32 border low.now high.now line.now approx.old detail.old scratch.old carried.old
        result approx.new detail.new scratch.new carried.new }
{
    lines::isferghul_analyse(border, low, high, line, approx, detail, scratch, carried)
}

#[unsafe(no_mangle)]
pub extern "C" fn isferghul_synthesise_f32<'a>(
    low: &'a [f32],
    high: &'a [f32],
    approx: &[f32],
    detail: &[f32],
    out: &mut [f32],
    carried: &mut [usize; 2],
) -> u64
    ensures { SynthesisTold binary32 low.now high.now approx.now detail.now out.old carried.old result out.new carried.new }
{
    lines::isferghul_synthesise(low, high, approx, detail, out, carried)
}

#[unsafe(no_mangle)]
pub extern "C" fn isferghul_convolve_f32(
    border: usize,
    line: &[f32],
    out: &mut [f32],
    scratch: &mut [f32],
    kernel: &[f32],
    centre: i64,
    carried: &mut [usize; 2],
) -> u64
    ensures { ConvolutionTold binary32 border line.now out.old scratch.old kernel.now centre carried.old
        result out.new scratch.new carried.new }
{
    lines::isferghul_convolve(border, line, out, scratch, kernel, centre, carried)
}
