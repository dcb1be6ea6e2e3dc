// A line over levels and back, for C: the exports, each that of its name in `isferghul`.
ghost use Rattle.std.specs.Prelude.{◌≡◌};
ghost use Rattle.isferghul.specs.Levels.{holder, LevelsTold, RestoringTold, DividingTold};

use isferghul::packing;

#[unsafe(no_mangle)]
pub extern "C" fn isferghul_analyse_levels<'a>(
    border: usize,
    low: &'a [f64],
    high: &'a [f64],
    line: &[f64],
    levels: usize,
    packed: &mut [f64],
    scratch: &mut [f64],
    carried: &mut [usize; 2],
) -> u64
    ensures { LevelsTold border low.now high.now line.now levels packed.old scratch.old carried.old
        result packed.new scratch.new carried.new }
{
    packing::isferghul_analyse_levels(border, low, high, line, levels, packed, scratch, carried)
}

#[unsafe(no_mangle)]
pub extern "C" fn isferghul_restore_levels<'a>(
    low: &'a [f64],
    high: &'a [f64],
    packed: &[f64],
    n: usize,
    levels: usize,
    first: &mut [f64],
    second: &mut [f64],
    carried: &mut [usize; 2],
) -> u64
    ensures { RestoringTold low.now high.now packed.now n levels first.old second.old carried.old
        result first.new second.new carried.new }
{
    packing::isferghul_restore_levels(low, high, packed, n, levels, first, second, carried)
}

#[unsafe(no_mangle)]
pub extern "C" fn isferghul_restore_divided<'a>(
    low: &'a [f64],
    high: &'a [f64],
    s: f64,
    packed: &[f64],
    n: usize,
    levels: usize,
    first: &mut [f64],
    second: &mut [f64],
    carried: &mut [usize; 2],
) -> u64
    ensures { DividingTold low.now high.now s packed.now n levels first.old second.old carried.old
        result first.new second.new carried.new }
{
    packing::isferghul_restore_divided(low, high, s, packed, n, levels, first, second, carried)
}
