// Two tap lists: how many taps they have, and the high ones of the mirror rule.
ghost use Rattle.std.specs.Prelude.{◌≡◌};
ghost use Rattle.bank.specs.Banks.{taps_of, Mirrored};

use crate::making::Making;
use crate::sizes::bad_taps;
use crate::work::mirror_to;
use numbers::real::Real;

// How many taps two lists have in each; none where they make no bank.
pub fn taps_of(low: usize, high: usize) -> usize
    ensures { result ≡ taps_of low high }
{
    if bad_taps(low) || high != low { 0 } else { low }
}

// The high taps that follow from the low ones.
pub fn mirror<R: Real>(low: &[R], high: &mut [R]) -> Making
    ensures { Mirrored (R.floats low.now) (R.floats high.old) result (R.floats high.new) }
{
    if taps_of(low.len(), high.len()) == 0 {
        return Making::Taps;
    }
    mirror_to(low, high);
    Making::Done
}
