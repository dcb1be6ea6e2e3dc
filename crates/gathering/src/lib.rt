// Sixteen places of one parity, gathered from the pairs that reach them. Inlined, their sums stay in registers, several to each.
#![tactic(auto)]

pub mod seconds;

ghost use Rattle.std.specs.Prelude.{◌≡◌, ◌+◌, ◌*◌, ◌≤◌, length};
ghost use Rattle.numbers.specs.Words.{at, tab};
ghost use Rattle.gathering.specs.Works.{Adding, Gatherable, Seconds, onto_at, gathered_at};

use crate::seconds::{put_seconds, take_seconds};
use numbers::real::Real;

// Tap j onto each sum, the first from pair i, the next from the pair behind: the detail's product, then the approximation's.
fn add_pairs<R: Real>(
    low: &[R],
    high: &[R],
    j: usize,
    approx: &[R],
    detail: &[R],
    i: usize,
    sums: &mut [R; 16],
)
    requires { Adding j i (length low.now) (length high.now) (length approx.now) (length detail.now) × (length sums.old ≡ 16) }
    ensures { R.floats sums.new ≡ tab (onto_at R.format (R.floats low.now) (R.floats high.now) (R.floats approx.now) (R.floats detail.now) j i (R.floats sums.old)) 16 }
{
    let l = low[j];
    let h = high[j];
    for q in 0..16 {
        sums[q] = sums[q]
            .add_product(h, detail[i + q])
            .add_product(l, approx[i + q]);
    }
}

// The pairs from k on onto the sums: tap `last`, then each second one before it.
fn gather<R: Real>(
    low: &[R],
    high: &[R],
    last: usize,
    half: usize,
    approx: &[R],
    detail: &[R],
    k: usize,
    sums: &mut [R; 16],
)
    requires { Gatherable last half k (length low.now) (length high.now) (length approx.now) (length detail.now) × (length sums.old ≡ 16) }
    ensures { R.floats sums.new ≡ tab (gathered_at R.format (R.floats low.now) (R.floats high.now) (R.floats approx.now) (R.floats detail.now) last k (R.floats sums.old) half) 16 }
{
    for s in 0..half {
        add_pairs(low, high, last - 2 * s, approx, detail, k + s, sums);
    }
}

// Sixteen places of one parity, p the first of them.
pub fn sixteen<R: Real>(
    low: &[R],
    high: &[R],
    last: usize,
    half: usize,
    approx: &[R],
    detail: &[R],
    k: usize,
    out: &mut [R],
    p: usize,
)
    requires { Gatherable last half k (length low.now) (length high.now) (length approx.now) (length detail.now) × (p + 32 ≤ length out.old + 1) }
    ensures { Seconds p (tab (gathered_at R.format (R.floats low.now) (R.floats high.now) (R.floats approx.now) (R.floats detail.now) last k
        (tab (λ q. at (R.floats out.old) (p + 2 * q)) 16) half) 16) (R.floats out.old) (R.floats out.new) 16 }
{
    let mut sums = [R::zero(); 16];
    take_seconds(&mut sums, out, p);
    gather(low, high, last, half, approx, detail, k, &mut sums);
    put_seconds(&sums, out, p);
}
