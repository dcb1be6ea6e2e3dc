// Taps in the arrays of a bank: for entries to share, sizes have been tested.
ghost use Rattle.std.specs.Prelude.{◌≡◌, ◌≤◌, length};
ghost use Rattle.numbers.specs.Words.{at, written};
ghost use Rattle.bank.specs.Banks.{signed, mirror, zeros};

use numbers::copying::copy_to;
use numbers::real::Real;

// An array of taps before any is in it.
pub fn zeros<R: Real>() -> [R; 64]
    ensures { R.floats result ≡ zeros }
{
    [R::zero(); 64]
}

// The taps in an array, zeros behind them.
#[tactic(auto, using(numbers::specs::Places::placed_front))]
pub fn held<R: Real>(taps: &[R]) -> [R; 64]
    requires { length taps.now ≤ 64 }
    ensures { R.floats result ≡ written (at (R.floats taps.now)) (length taps.now) zeros }
{
    let mut a = zeros();
    copy_to(taps, &mut a, 0);
    a
}

// Signs alternate over j.
fn signed<R: Real>(j: usize, x: R) -> R
    ensures { R.float result ≡ signed j (R.float x) }
{
    if j % 2 == 0 { x } else { -x }
}

// The high taps of the mirror rule, over the front of a list that has room for them.
pub fn mirror_to<R: Real>(low: &[R], high: &mut [R])
    requires { length low.now ≤ length high.old }
    ensures { R.floats high.new ≡ written (mirror (R.floats low.now)) (length low.now) (R.floats high.old) }
{
    let f = low.len();
    for j in 0..f {
        high[j] = signed(j, low[f - 1 - j]);
    }
}

// The same in an array, zeros behind them.
pub fn low_pass_to_high<R: Real>(low: &[R]) -> [R; 64]
    requires { length low.now ≤ 64 }
    ensures { R.floats result ≡ written (mirror (R.floats low.now)) (length low.now) zeros }
{
    let mut a = zeros();
    mirror_to(low, &mut a);
    a
}
