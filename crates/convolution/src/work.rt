// The sums of convolution over a padded line: sizes have been tested.
ghost use Rattle.std.specs.Prelude.{◌≡◌, ◌+◌, ◌<◌, ◌≤◌, length};
ghost use Rattle.numbers.specs.Words.{replaced, tab};
ghost use Rattle.convolution.specs.Works.{product, more, place_of, Summing, Summed};

use numbers::copying::copy_to;
use numbers::real::Real;

// Sum q starts as the product of sample x + q and the first tap.
fn start<R: Real>(sums: &mut [R], padded: &[R], x: usize, tap: R)
    requires { x + length sums.old ≤ length padded.now }
    ensures { R.floats sums.new ≡ tab (product R.format (R.floats padded.now) x (R.float tap)) (length sums.old) }
{
    for (q, sum) in sums.iter_mut().enumerate() {
        *sum = padded[x + q] * tap;
    }
}

// The same product of another tap goes onto each sum.
fn add_tap<R: Real>(sums: &mut [R], padded: &[R], x: usize, tap: R)
    requires { x + length sums.old ≤ length padded.now }
    ensures { R.floats sums.new ≡ tab (more R.format (R.floats sums.old) (R.floats padded.now) x (R.float tap)) (length sums.old) }
{
    for (q, sum) in sums.iter_mut().enumerate() {
        *sum = sum.add_product(padded[x + q], tap);
    }
}

// The places from x on, as many as there are sums, by way of these. Inlined where their number is known, they travel through the taps in registers, several to each.
fn block<R: Real>(kernel: &[R], padded: &[R], x: usize, sums: &mut [R], out: &mut [R])
    requires { Summing (length kernel.now) (length padded.now) (x + length sums.old) × (x + length sums.old ≤ length out.old) }
    ensures { R.floats out.new ≡ replaced (place_of R.format (R.floats kernel.now) (R.floats padded.now)) x (length sums.old) (R.floats out.old) }
{
    start(sums, padded, x, kernel[0]);
    for i in 1..kernel.len() {
        add_tap(sums, padded, x + i, kernel[i]);
    }
    copy_to(sums, out, x);
}

// N places a turn, from `from` on, while more than LEFT are left; the answer is how many are done. The last N may end where the output does
// and lap over those before: they write the same numbers there. An output of fewer than N is left as it is. Those before `from` are done.
fn blocks<R: Real, const N: usize, const LEFT: usize>(
    kernel: &[R],
    padded: &[R],
    out: &mut [R],
    from: usize,
) -> usize
    requires { Summing (length kernel.now) (length padded.now) (length out.old) × (from ≤ length out.old) × Summed R.format (R.floats kernel.now) (R.floats padded.now) from (R.floats out.old) × (LEFT < N) × (N ≤ 16) }
    ensures { (result ≤ length out.old) × (length out.old < result + N) × Summed R.format (R.floats kernel.now) (R.floats padded.now) result (R.floats out.new) }
{
    let n = out.len();
    if n < N {
        return from;
    }
    let last = n - N;
    let mut x = from;
    // No `for`: x goes by N, the last time by fewer.
    while x < n - LEFT {
        let at = x.min(last);
        let mut sums = [R::zero(); N];
        block(kernel, padded, at, &mut sums, out);
        x = at + N;
    }
    x
}

// Every place.
#[tactic(auto, using(crate::specs::Turns::summed_none))]
pub fn sums<R: Real>(kernel: &[R], padded: &[R], out: &mut [R])
    requires { Summing (length kernel.now) (length padded.now) (length out.old) }
    ensures { R.floats out.new ≡ tab (place_of R.format (R.floats kernel.now) (R.floats padded.now)) (length out.old) }
{
    let x = blocks::<R, 16, 8>(kernel, padded, out, 0);
    let y = blocks::<R, 4, 1>(kernel, padded, out, x);
    blocks::<R, 1, 0>(kernel, padded, out, y);
}
