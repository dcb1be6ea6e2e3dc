// Both bands joined into an output, each place gathered from the f / 2 pairs that reach it: place 2k + e takes tap f - 2 + e - 2s from pair k + s, s rising.
// The output has 2m + 2 - f places for m pairs, so that every place has all its pairs: there are no edges.
ghost use Rattle.std.specs.Prelude.{◌≡◌, ◌+◌, ◌*◌, ◌≤◌, length};
ghost use Rattle.numbers.specs.Words.{cleared, replaced};
ghost use Rattle.synthesis.specs.Lines.{synthesised};
ghost use Rattle.synthesis.specs.Works.{Taking, place_of, joined_from};

use gathering::sixteen;
use numbers::real::Real;

// Thirty-two places from 2k on: the even ones, then the odd ones. `sixteen` is called in one place only, so that it is inlined.
fn thirty_two<R: Real>(
    low: &[R],
    high: &[R],
    f: usize,
    approx: &[R],
    detail: &[R],
    k: usize,
    out: &mut [R],
)
    requires { Taking f (length low.now) (length high.now) (length approx.now) (length detail.now) (length out.old) × (2 * k + 32 ≤ length out.old) }
    ensures { R.floats out.new ≡ replaced (place_of R.format f (R.floats low.now) (R.floats high.now) (R.floats approx.now) (R.floats detail.now) (R.floats out.old)) (2 * k) 32 (R.floats out.old) }
{
    let half = f / 2;
    for e in 0..2 {
        sixteen(
            low,
            high,
            f - 2 + e,
            half,
            approx,
            detail,
            k,
            out,
            2 * k + e,
        );
    }
}

// Places 2k and 2k + 1.
fn two_at<R: Real>(
    low: &[R],
    high: &[R],
    f: usize,
    approx: &[R],
    detail: &[R],
    k: usize,
    out: &mut [R],
)
    requires { Taking f (length low.now) (length high.now) (length approx.now) (length detail.now) (length out.old) × (2 * k + 2 ≤ length out.old) }
    ensures { R.floats out.new ≡ replaced (place_of R.format f (R.floats low.now) (R.floats high.now) (R.floats approx.now) (R.floats detail.now) (R.floats out.old)) (2 * k) 2 (R.floats out.old) }
{
    let mut even = out[2 * k];
    let mut odd = out[2 * k + 1];
    for s in 0..f / 2 {
        let j = f - 2 - 2 * s;
        let a = approx[k + s];
        let d = detail[k + s];
        even = even.add_product(high[j], d).add_product(low[j], a);
        odd = odd.add_product(high[j + 1], d).add_product(low[j + 1], a);
    }
    out[2 * k] = even;
    out[2 * k + 1] = odd;
}

// Thirty-two places a turn, from the front; the answer is half of how many are done.
fn thirty_twos<R: Real>(
    low: &[R],
    high: &[R],
    f: usize,
    approx: &[R],
    detail: &[R],
    out: &mut [R],
) -> usize
    requires { Taking f (length low.now) (length high.now) (length approx.now) (length detail.now) (length out.old) }
    ensures { (2 * result ≤ length out.old) × (R.floats out.new ≡ joined_from R.format f (R.floats low.now) (R.floats high.now) (R.floats approx.now) (R.floats detail.now) 0 result (R.floats out.old)) }
{
    let turns = out.len() / 32;
    for t in 0..turns {
        thirty_two(low, high, f, approx, detail, 16 * t, out);
    }
    16 * turns
}

// Every place, the rest of them two by two. The tap lists have one lifetime, so that a bank can lend its fields.
pub fn join<'a, R: Real>(
    low: &'a [R],
    high: &'a [R],
    f: usize,
    approx: &[R],
    detail: &[R],
    out: &mut [R],
)
    requires { Taking f (length low.now) (length high.now) (length approx.now) (length detail.now) (length out.old) }
    ensures { R.floats out.new ≡ synthesised R.format f (R.floats low.now) (R.floats high.now) (R.floats approx.now) (R.floats detail.now) (R.floats out.old) }
{
    let done = thirty_twos(low, high, f, approx, detail, out);
    for k in done..out.len() / 2 {
        two_at(low, high, f, approx, detail, k, out);
    }
}

pub fn clear<R: Real>(line: &mut [R])
    ensures { R.floats line.new ≡ cleared (length line.old) }
{
    for x in line.iter_mut() {
        *x = R::zero();
    }
}

// Both bands joined into an output that is cleared first.
pub fn join_cleared<'a, R: Real>(
    low: &'a [R],
    high: &'a [R],
    f: usize,
    approx: &[R],
    detail: &[R],
    out: &mut [R],
)
    requires { Taking f (length low.now) (length high.now) (length approx.now) (length detail.now) (length out.old) }
    ensures { R.floats out.new ≡ synthesised R.format f (R.floats low.now) (R.floats high.now) (R.floats approx.now) (R.floats detail.now) (cleared (length out.old)) }
{
    clear(out);
    join(low, high, f, approx, detail, out);
}
