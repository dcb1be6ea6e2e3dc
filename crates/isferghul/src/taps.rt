// Tap lists, for C: the high taps of the mirror rule, and whether four lists make a bank.
ghost use Rattle.isferghul.specs.Lines.{MirrorTold, PairsTold};

use bank::making::{Making, pairs_answer};
use bank::taps;
use numbers::real::Real;

pub fn isferghul_mirror<R: Real>(low: &[R], high: &mut [R]) -> u64
    ensures { MirrorTold (R.floats low.now) (R.floats high.old) result (R.floats high.new) }
{
    match taps::mirror(low, high) {
        Making::Done => 0,
        Making::Taps => 12,
    }
}

// The lengths of the two lists for the way there and of the two for the way back, which no other export sees together.
pub fn isferghul_two_pairs(lows: usize, highs: usize, lowbacks: usize, highbacks: usize) -> u64
    ensures { PairsTold lows highs lowbacks highbacks result }
{
    match pairs_answer(lows, highs, lowbacks, highbacks) {
        Making::Done => 0,
        Making::Taps => 12,
    }
}
