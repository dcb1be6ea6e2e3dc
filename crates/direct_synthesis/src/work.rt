// Each place by itself: onto what it held come the pairs that reach it, rising. Pair i reaches place p by tap p + f - 2 - 2i, so the first is p / 2, by one of the last two taps. Sizes have been tested.
ghost use Rattle.std.specs.Prelude.{◌≡◌, ◌+◌, ◌-◌, ◌*◌, ◌<◌, ◌≤◌, length};
ghost use Rattle.std.specs.Float.{binary64};
ghost use Rattle.std.specs.Float.Ieee.{add, mul};
ghost use Rattle.numbers.specs.Words.{written, replaced};
ghost use Rattle.synthesis.specs.Lines.{synthesised};
ghost use Rattle.synthesis.specs.Works.{Taking, place_of};

// One pair onto a place: the detail's product, then the approximation's.
fn onto(sum: f64, high: f64, d: f64, low: f64, a: f64) -> f64
    ensures { result ≡ add binary64 (add binary64 sum (mul binary64 high d)) (mul binary64 low a) }
{
    sum + high * d + low * a
}

// Place p, from what it held.
fn gather(
    low: &[f64],
    high: &[f64],
    f: usize,
    approx: &[f64],
    detail: &[f64],
    out: &[f64],
    p: usize,
) -> f64
    requires { Taking f (length low.now) (length high.now) (length approx.now) (length detail.now) (length out.now) × (p < length out.now) }
    ensures { result ≡ place_of binary64 f low.now high.now approx.now detail.now out.now p }
{
    let odd = p % 2;
    let mut sum = out[p];
    let mut i = p / 2;
    let mut j = f;
    // j goes down by twos while i goes up by one
    while 2 <= j {
        j -= 2;
        sum = onto(sum, high[j + odd], detail[i], low[j + odd], approx[i]);
        i += 1;
    }
    sum
}

// Places 2k to 2k + 3 in flight, each by a sum of its own: the first two from pairs k and on, the others from those behind.
fn four(
    low: &[f64],
    high: &[f64],
    f: usize,
    approx: &[f64],
    detail: &[f64],
    k: usize,
    out: &mut [f64],
)
    requires { Taking f (length low.now) (length high.now) (length approx.now) (length detail.now) (length out.old) × (2 * k + 4 ≤ length out.old) }
    ensures { out.new ≡ replaced (place_of binary64 f low.now high.now approx.now detail.now out.old) (2 * k) 4 out.old }
{
    let mut first = out[2 * k];
    let mut second = out[2 * k + 1];
    let mut third = out[2 * k + 2];
    let mut fourth = out[2 * k + 3];
    let mut i = k;
    let mut j = f;
    // j goes down by twos while i goes up by one
    while 2 <= j {
        j -= 2;
        let even_high = high[j];
        let even_low = low[j];
        let odd_high = high[j + 1];
        let odd_low = low[j + 1];
        let d = detail[i];
        let a = approx[i];
        first = onto(first, even_high, d, even_low, a);
        second = onto(second, odd_high, d, odd_low, a);
        i += 1;
        let next_d = detail[i];
        let next_a = approx[i];
        third = onto(third, even_high, next_d, even_low, next_a);
        fourth = onto(fourth, odd_high, next_d, odd_low, next_a);
    }
    out[2 * k] = first;
    out[2 * k + 1] = second;
    out[2 * k + 2] = third;
    out[2 * k + 3] = fourth;
}

// Four places a turn, from the front; the answer is half of how many are done.
#[tactic(auto, using(numbers::specs::Write::written_start, synthesis::specs::Runs::still_taking, crate::specs::Places::four_more))]
fn fours(
    low: &[f64],
    high: &[f64],
    f: usize,
    approx: &[f64],
    detail: &[f64],
    out: &mut [f64],
) -> usize
    requires { Taking f (length low.now) (length high.now) (length approx.now) (length detail.now) (length out.old) }
    ensures { (2 * result ≤ length out.old) × (out.new ≡ written (place_of binary64 f low.now high.now approx.now detail.now out.old) (2 * result) out.old) }
{
    let n = out.len();
    let mut k = 0usize;
    // k goes by twos, and where it stops is the answer
    while 2 * k + 3 < n {
        four(low, high, f, approx, detail, k, out);
        k += 2;
    }
    k
}

// Every place, what is left of them one by one. The tap lists have one lifetime, so that a bank can lend its fields.
#[tactic(auto, using(numbers::specs::Write::replaced_start, synthesis::specs::Runs::still_taking, crate::specs::Places::place_more))]
pub fn gather_all<'a>(
    low: &'a [f64],
    high: &'a [f64],
    f: usize,
    approx: &[f64],
    detail: &[f64],
    out: &mut [f64],
)
    requires { Taking f (length low.now) (length high.now) (length approx.now) (length detail.now) (length out.old) }
    ensures { out.new ≡ synthesised binary64 f low.now high.now approx.now detail.now out.old }
{
    let done = 2 * fours(low, high, f, approx, detail, out);
    for p in done..out.len() {
        out[p] = gather(low, high, f, approx, detail, out, p);
    }
}
