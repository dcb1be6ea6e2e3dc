// A line over levels and back, for C.
ghost use Rattle.std.specs.Prelude.{◌≡◌};
ghost use Rattle.isferghul.specs.Levels.{holder, LevelsTold, RestoringTold, DividingTold};

use bank::taps::taps_of;
use level_telling::told;
use levels::lists::analyse_levels;
use packed::depth::restoring_need;
use restoring::lists::{restore_divided, restore_levels};
use telling::borders::{border_of, no_border};
use telling::told::{one, two};

pub fn isferghul_analyse_levels<'a>(
    border: usize,
    low: &'a [f64],
    high: &'a [f64],
    line: &[f64],
    levels: usize,
    packed: &mut [f64],
    scratch: &mut [f64],
    carried: &mut [usize; 2],
) -> u64
    ensures { LevelsTold border low.now high.now line.now levels packed.old scratch.old carried.old
        result packed.new scratch.new carried.new }
{
    if no_border(border) {
        return one(26, border, carried);
    }
    let f = taps_of(low.len(), high.len());
    let b = border_of(border);
    let answer = analyse_levels(low, high, f, b, line, levels, packed, scratch);
    told::levels(answer, carried)
}

// The buffer that the line comes to stand in: the first of two for an odd number of levels, else the second.
fn holder_of(levels: usize) -> usize
    ensures { result ≡ holder levels }
{
    if levels.max(1) % 2 == 0 {
        return 2;
    }
    1
}

// No border: restoring reads none. Which buffer holds the line and how long it is are carried.
pub fn isferghul_restore_levels<'a>(
    low: &'a [f64],
    high: &'a [f64],
    packed: &[f64],
    n: usize,
    levels: usize,
    first: &mut [f64],
    second: &mut [f64],
    carried: &mut [usize; 2],
) -> u64
    ensures { RestoringTold low.now high.now packed.now n levels first.old second.old carried.old
        result first.new second.new carried.new }
{
    let f = taps_of(low.len(), high.len());
    let answer = restore_levels(low, high, f, packed, n, levels, first, second);
    let number = told::levels(answer, carried);
    if number != 0 {
        return number;
    }
    two(0, holder_of(levels), restoring_need(n, f), carried)
}

// The same, each joined line divided by s.
pub fn isferghul_restore_divided<'a>(
    low: &'a [f64],
    high: &'a [f64],
    s: f64,
    packed: &[f64],
    n: usize,
    levels: usize,
    first: &mut [f64],
    second: &mut [f64],
    carried: &mut [usize; 2],
) -> u64
    ensures { DividingTold low.now high.now s packed.now n levels first.old second.old carried.old
        result first.new second.new carried.new }
{
    let f = taps_of(low.len(), high.len());
    let answer = restore_divided(low, high, f, s, packed, n, levels, first, second);
    let number = told::divided(answer, carried);
    if number != 0 {
        return number;
    }
    two(0, holder_of(levels), restoring_need(n, f), carried)
}
