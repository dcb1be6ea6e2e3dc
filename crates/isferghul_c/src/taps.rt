// Tap lists, for C: the high taps of the mirror rule, and whether four lists make a bank: the exports, each that of its name in `isferghul`.
ghost use Rattle.isferghul.specs.Lines.{MirrorTold, PairsTold};

use isferghul::taps;

#[unsafe(no_mangle)]
pub extern "C" fn isferghul_mirror(low: &[f64], high: &mut [f64]) -> u64
    ensures { MirrorTold low.now high.old result high.new }
{
    taps::isferghul_mirror(low, high)
}

#[unsafe(no_mangle)]
pub extern "C" fn isferghul_two_pairs(
    lows: usize,
    highs: usize,
    lowbacks: usize,
    highbacks: usize,
) -> u64
    ensures { PairsTold lows highs lowbacks highbacks result }
{
    taps::isferghul_two_pairs(lows, highs, lowbacks, highbacks)
}
