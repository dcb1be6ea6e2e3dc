// Both sums of one place, over the samples of a padded line: what every band is made of.
#![tactic(auto)]

pub mod eights;

ghost use Rattle.std.specs.Prelude.{◌≡◌, length};
ghost use Rattle.std.specs.Float.Ieee.{add, mul};
ghost use Rattle.summing.specs.Sums.{tap_sum, Placeable};

use numbers::real::Real;

// Both sums of a place travel through the taps as one pair.
#[derive(Drop)]
pub struct Pair<R> {
    pub approx: R,
    pub detail: R,
}

// One tap: each product is rounded, then each sum.
pub fn tap<R: Real>(sums: Pair<R>, low: R, high: R, x: R) -> Pair<R>
    ensures { (R.float result.approx ≡ add R.format (R.float sums.approx) (mul R.format (R.float low) (R.float x)))
        × (R.float result.detail ≡ add R.format (R.float sums.detail) (mul R.format (R.float high) (R.float x))) }
{
    Pair {
        approx: sums.approx.add_product(low, x),
        detail: sums.detail.add_product(high, x),
    }
}

// Both sums over the padded samples from `from` on.
pub fn place<R: Real>(low: &[R], high: &[R], f: usize, padded: &[R], from: usize) -> Pair<R>
    requires { Placeable f (length low.now) (length high.now) (length padded.now) from }
    ensures { (R.float result.approx ≡ tap_sum R.format (R.floats low.now) (R.floats padded.now) from f)
        × (R.float result.detail ≡ tap_sum R.format (R.floats high.now) (R.floats padded.now) from f) }
{
    let mut sums = Pair {
        approx: R::zero(),
        detail: R::zero(),
    };
    for j in 0..f {
        sums = tap(sums, low[j], high[j], padded[from + j]);
    }
    sums
}
