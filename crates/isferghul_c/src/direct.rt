// One line by the second engine, for C: the exports, each that of its name in `isferghul`.
ghost use Rattle.std.specs.Float.{binary64};
ghost use Rattle.isferghul.specs.Lines.{DirectTold, SynthesisTold};

use isferghul::direct;

#[unsafe(no_mangle)]
pub extern "C" fn isferghul_analyse_directly<'a>(
    border: usize,
    low: &'a [f64],
    high: &'a [f64],
    line: &[f64],
    approx: &mut [f64],
    detail: &mut [f64],
    carried: &mut [usize; 2],
) -> u64
    ensures { DirectTold binary64 border low.now high.now line.now approx.old detail.old carried.old
        result approx.new detail.new carried.new }
{
    direct::isferghul_analyse_directly(border, low, high, line, approx, detail, carried)
}

#[unsafe(no_mangle)]
pub extern "C" fn isferghul_synthesise_directly<'a>(
    low: &'a [f64],
    high: &'a [f64],
    approx: &[f64],
    detail: &[f64],
    out: &mut [f64],
    carried: &mut [usize; 2],
) -> u64
    ensures { SynthesisTold binary64 low.now high.now approx.now detail.now out.old carried.old result out.new carried.new }
{
    direct::isferghul_synthesise_directly(low, high, approx, detail, out, carried)
}
