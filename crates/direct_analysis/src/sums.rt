// Both sums of a place: by the border rule, and of two places at once whose samples all lie in the line.
ghost use Rattle.std.specs.Prelude.{◌≡◌, ◌+◌, length};
ghost use Rattle.std.specs.Float.{binary64};
ghost use Rattle.std.specs.Float.Ieee.{add, mul};
ghost use Rattle.direct_analysis.specs.Works.{Reading, Lying, ruled_sum, line_sum};

use crate::rule::sample;
use border::Border;

// Both sums of a place travel through the taps as one pair.
#[derive(Drop)]
pub struct Sums {
    pub approx: f64,
    pub detail: f64,
}

// Two places that follow each other.
#[derive(Drop)]
pub struct Two {
    pub first: Sums,
    pub second: Sums,
}

// One tap: each product is rounded, then each sum.
fn tap(sums: Sums, low: f64, high: f64, x: f64) -> Sums
    ensures { (result.approx ≡ add binary64 sums.approx (mul binary64 low x)) × (result.detail ≡ add binary64 sums.detail (mul binary64 high x)) }
{
    Sums {
        approx: sums.approx + low * x,
        detail: sums.detail + high * x,
    }
}

// Both sums over the padded samples from `from` on, each by the border rule.
#[tactic(auto, using(summing::specs::Turns::dot_start, summing::specs::Turns::dot_step))]
pub fn by_rule(
    low: &[f64],
    high: &[f64],
    f: usize,
    border: Border,
    line: &[f64],
    from: usize,
) -> Sums
    requires { Reading f (length low.now) (length high.now) (length line.now) from }
    ensures { (result.approx ≡ ruled_sum binary64 low.now f border line.now from f)
        × (result.detail ≡ ruled_sum binary64 high.now f border line.now from f) }
{
    let mut sums = Sums {
        approx: 0.0,
        detail: 0.0,
    };
    for j in 0..f {
        let x = sample(border, line, f, from + j);
        sums = tap(sums, low[j], high[j], x);
    }
    sums
}

// Both sums over the samples from `from` on, and from two further on.
#[tactic(auto, using(summing::specs::Turns::dot_start, summing::specs::Turns::dot_step))]
pub fn two_within(low: &[f64], high: &[f64], f: usize, line: &[f64], from: usize) -> Two
    requires { Lying f (length low.now) (length high.now) (length line.now) from }
    ensures { (result.first.approx ≡ line_sum binary64 low.now line.now from f)
        × (result.first.detail ≡ line_sum binary64 high.now line.now from f)
        × (result.second.approx ≡ line_sum binary64 low.now line.now (from + 2) f)
        × (result.second.detail ≡ line_sum binary64 high.now line.now (from + 2) f) }
{
    let mut first = Sums {
        approx: 0.0,
        detail: 0.0,
    };
    let mut second = Sums {
        approx: 0.0,
        detail: 0.0,
    };
    for j in 0..f {
        first = tap(first, low[j], high[j], line[from + j]);
        second = tap(second, low[j], high[j], line[from + 2 + j]);
    }
    Two { first, second }
}
