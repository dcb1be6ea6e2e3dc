// Both bands of a line, in three runs of places: those that reach in front of it, those that lie in it, those that reach behind it. Sizes have been tested.
ghost use Rattle.std.specs.Prelude.{◌≡◌, ◌+◌, ◌-◌, ◌*◌, ◌≤◌, length};
ghost use Rattle.std.specs.Float.{binary64};
ghost use Rattle.numbers.specs.Words.{replaced};
ghost use Rattle.analysis.specs.Lines.{band};
ghost use Rattle.direct_analysis.specs.Works.{Direct, ruled_at, line_at};

use crate::sums::{Two, by_rule, two_within};
use border::Border;

// The places from `from` to `end`, each sample by the border rule.
#[tactic(auto, using(numbers::specs::Write::replaced_start, numbers::specs::Write::replaced_step))]
fn ruled(
    low: &[f64],
    high: &[f64],
    f: usize,
    border: Border,
    line: &[f64],
    approx: &mut [f64],
    detail: &mut [f64],
    from: usize,
    end: usize,
)
    requires { Direct f (length low.now) (length high.now) (length line.now) (length approx.old) (length detail.old) × (from ≤ end) × (end ≤ length approx.old) }
    ensures { (approx.new ≡ replaced (ruled_at binary64 low.now f border line.now) from (end - from) approx.old)
        × (detail.new ≡ replaced (ruled_at binary64 high.now f border line.now) from (end - from) detail.old) }
{
    for i in from..end {
        let sums = by_rule(low, high, f, border, line, 2 * i);
        approx[i] = sums.approx;
        detail[i] = sums.detail;
    }
}

// Two places a turn whose samples all lie in the line, from `from` on; the answer is the first that is not done.
#[tactic(auto, using(numbers::specs::Write::replaced_start, crate::specs::Runs::two_more, crate::specs::Runs::next_place))]
fn within(
    low: &[f64],
    high: &[f64],
    f: usize,
    line: &[f64],
    approx: &mut [f64],
    detail: &mut [f64],
    from: usize,
) -> usize
    requires { Direct f (length low.now) (length high.now) (length line.now) (length approx.old) (length detail.old) × (f ≤ 2 * from + 2) × (2 * from ≤ length line.now) }
    ensures { (from ≤ result) × (2 * result ≤ length line.now)
        × (approx.new ≡ replaced (line_at binary64 low.now f line.now) from (result - from) approx.old)
        × (detail.new ≡ replaced (line_at binary64 high.now f line.now) from (result - from) detail.old) }
{
    let n = line.len();
    let mut i = from;
    // i goes by twos, and where it stops is the answer
    while 2 * i + 3 < n {
        let Two { first, second } = two_within(low, high, f, line, 2 * i + 2 - f);
        approx[i] = first.approx;
        approx[i + 1] = second.approx;
        detail[i] = first.detail;
        detail[i + 1] = second.detail;
        i += 2;
    }
    i
}

// Both bands. The tap lists have one lifetime, so that a bank can lend its fields.
pub fn bands<'a>(
    low: &'a [f64],
    high: &'a [f64],
    f: usize,
    border: Border,
    line: &[f64],
    approx: &mut [f64],
    detail: &mut [f64],
)
    requires { Direct f (length low.now) (length high.now) (length line.now) (length approx.old) (length detail.old) }
    ensures { (approx.new ≡ band binary64 low.now f border line.now)
        × (detail.new ≡ band binary64 high.now f border line.now) }
{
    let m = approx.len();
    let first = f / 2 - 1;
    ruled(low, high, f, border, line, approx, detail, 0, first);
    let i = within(low, high, f, line, approx, detail, first);
    ruled(low, high, f, border, line, approx, detail, i, m);
}
