// Eight places in flight, the sums of each band in a list of its own. Inlined they stay in registers, several places to each.
ghost use Rattle.std.specs.Prelude.{◌≡◌, ◌+◌, ◌≤◌, length};
ghost use Rattle.numbers.specs.Words.{at, placed, tab};
ghost use Rattle.summing.specs.Sums.{Placeable};
ghost use Rattle.summing.specs.Works.{sums_at, tapped};

use crate::{Pair, tap};
use numbers::real::Real;

// Eight places of both bands.
#[derive(Drop)]
pub struct Bands<R> {
    pub approx: [R; 8],
    pub detail: [R; 8],
}

// One tap of eight places.
fn tap_eight<R: Real>(
    approx: &mut [R; 8],
    detail: &mut [R; 8],
    low: R,
    high: R,
    padded: &[R],
    from: usize,
)
    requires { (length approx.old ≡ 8) × (length detail.old ≡ 8) × (from + 15 ≤ length padded.now) }
    ensures { (R.floats approx.new ≡ tab (tapped R.format (R.floats approx.old) (R.float low) (R.floats padded.now) from) 8)
        × (R.floats detail.new ≡ tab (tapped R.format (R.floats detail.old) (R.float high) (R.floats padded.now) from) 8) }
{
    for q in 0..8 {
        let given = Pair {
            approx: approx[q],
            detail: detail[q],
        };
        let sums = tap(given, low, high, padded[from + 2 * q]);
        approx[q] = sums.approx;
        detail[q] = sums.detail;
    }
}

// Both sums of eight places.
pub fn eight<R: Real>(low: &[R], high: &[R], f: usize, padded: &[R], from: usize) -> Bands<R>
    requires { Placeable f (length low.now) (length high.now) (length padded.now) (from + 14) }
    ensures { (R.floats result.approx ≡ tab (sums_at R.format (R.floats low.now) (R.floats padded.now) from f) 8)
        × (R.floats result.detail ≡ tab (sums_at R.format (R.floats high.now) (R.floats padded.now) from f) 8) }
{
    let mut approx = [R::zero(); 8];
    let mut detail = [R::zero(); 8];
    for j in 0..f {
        tap_eight(&mut approx, &mut detail, low[j], high[j], padded, from + j);
    }
    Bands { approx, detail }
}

// Eight places of one band. By a loop over an array by value they stay in registers: `copy_to` was slower (tried).
pub fn put<R: Real>(sums: [R; 8], out: &mut [R], to: usize)
    requires { to + 8 ≤ length out.old }
    ensures { R.floats out.new ≡ placed (at (R.floats sums)) to 8 (R.floats out.old) }
{
    for q in 0..8 {
        out[to + q] = sums[q];
    }
}
