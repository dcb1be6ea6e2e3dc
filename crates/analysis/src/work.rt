// Both bands of a line, padded or to be padded, for entries to share: sizes have been tested.
ghost use Rattle.std.specs.Prelude.{◌≡◌, ◌++◌, ◌≤◌, length, take, drop};
ghost use Rattle.numbers.specs.Words.{tab, written, placed};
ghost use Rattle.bank.specs.Lengths.{padded_length, Lent};
ghost use Rattle.analysis.specs.Lines.{band, padded_at, padded_into};
ghost use Rattle.analysis.specs.Works.{band_of, both_placed, line_at, Bandable, Beside, Inside, Halves, Padding, PaddingWithin, Analysing};

use bank::lengths::{padded_length, right_pad};
use border::Border;
use border::pad::{pad, pad_within};
use numbers::real::Real;
use summing::eights::{eight, put};
use summing::place;

// Eight places a turn, from the front; the answer is how many are done.
fn eights<R: Real>(
    low: &[R],
    high: &[R],
    f: usize,
    padded: &[R],
    approx: &mut [R],
    detail: &mut [R],
) -> usize
    requires { Bandable f (length low.now) (length high.now) (length padded.now) (length approx.old) (length detail.old) }
    ensures { (result ≤ length approx.old) × (R.floats approx.new ≡ written (band_of R.format (R.floats low.now) f (R.floats padded.now)) result (R.floats approx.old))
        × (R.floats detail.new ≡ written (band_of R.format (R.floats high.now) f (R.floats padded.now)) result (R.floats detail.old)) }
{
    let turns = approx.len() / 8;
    for k in 0..turns {
        let i = 8 * k;
        let sums = eight(low, high, f, padded, 2 * i);
        put(sums.approx, approx, i);
        put(sums.detail, detail, i);
    }
    8 * turns
}

// Both bands of a padded line.
pub fn bands<R: Real>(
    low: &[R],
    high: &[R],
    f: usize,
    padded: &[R],
    approx: &mut [R],
    detail: &mut [R],
)
    requires { Bandable f (length low.now) (length high.now) (length padded.now) (length approx.old) (length detail.old) }
    ensures { (R.floats approx.new ≡ tab (band_of R.format (R.floats low.now) f (R.floats padded.now)) (length approx.old))
        × (R.floats detail.new ≡ tab (band_of R.format (R.floats high.now) f (R.floats padded.now)) (length approx.old)) }
{
    let done = eights(low, high, f, padded, approx, detail);
    for i in done..approx.len() {
        let p = place(low, high, f, padded, 2 * i);
        approx[i] = p.approx;
        detail[i] = p.detail;
    }
}

// Eight places a turn of both bands in one buffer; the answer is how many are done.
fn eights_beside<R: Real>(
    low: &[R],
    high: &[R],
    f: usize,
    padded: &[R],
    both: &mut [R],
    m: usize,
) -> usize
    requires { Beside f (length low.now) (length high.now) (length padded.now) (length both.old) m }
    ensures { (result ≤ m) × Halves (band_of R.format (R.floats high.now) f (R.floats padded.now)) (band_of R.format (R.floats low.now) f (R.floats padded.now)) 0 m result (R.floats both.old) (R.floats both.new) }
{
    let turns = m / 8;
    for k in 0..turns {
        let i = 8 * k;
        let sums = eight(low, high, f, padded, 2 * i);
        put(sums.detail, both, i);
        put(sums.approx, both, m + i);
    }
    8 * turns
}

// Both bands of a padded line into one buffer: the details in front, the approximations behind them.
pub fn bands_beside<R: Real>(
    low: &[R],
    high: &[R],
    f: usize,
    padded: &[R],
    both: &mut [R],
    m: usize,
)
    requires { Beside f (length low.now) (length high.now) (length padded.now) (length both.old) m }
    ensures { R.floats both.new ≡ tab (band_of R.format (R.floats high.now) f (R.floats padded.now)) m ++ tab (band_of R.format (R.floats low.now) f (R.floats padded.now)) m }
{
    let done = eights_beside(low, high, f, padded, both, m);
    for i in done..m {
        let p = place(low, high, f, padded, 2 * i);
        both[i] = p.detail;
        both[m + i] = p.approx;
    }
}

// Eight places a turn where the padded line lies in the buffer that takes the bands; the answer is how many are done.
fn eights_within<R: Real>(
    low: &[R],
    high: &[R],
    f: usize,
    s: &mut [R],
    from: usize,
    to: usize,
    m: usize,
) -> usize
    requires { Inside f (length low.now) (length high.now) (length s.old) from to m }
    ensures { (result ≤ m) × Halves (band_of R.format (R.floats low.now) f (line_at f from m (R.floats s.old))) (band_of R.format (R.floats high.now) f (line_at f from m (R.floats s.old))) to m result (R.floats s.old) (R.floats s.new) }
{
    let end = from + padded_length(m, f);
    let turns = m / 8;
    for k in 0..turns {
        let i = 8 * k;
        let sums = eight(low, high, f, &s[from..end], 2 * i);
        put(sums.approx, s, to + i);
        put(sums.detail, s, to + m + i);
    }
    8 * turns
}

// Both bands of a padded line that lies in the buffer which takes them, from `from` on: the approximations go to it from `to` on, the details behind them.
pub fn bands_within<R: Real>(
    low: &[R],
    high: &[R],
    f: usize,
    s: &mut [R],
    from: usize,
    to: usize,
    m: usize,
)
    requires { Inside f (length low.now) (length high.now) (length s.old) from to m }
    ensures { R.floats s.new ≡ both_placed R.format (R.floats low.now) (R.floats high.now) f from to m (R.floats s.old) }
{
    let end = from + padded_length(m, f);
    let done = eights_within(low, high, f, s, from, to, m);
    for i in done..m {
        let p = place(low, high, f, &s[from..end], 2 * i);
        s[to + i] = p.approx;
        s[to + m + i] = p.detail;
    }
}

// The padded line at the front of the scratch; what lies beyond it stays.
pub fn pad_line<R: Real>(f: usize, border: Border, line: &[R], scratch: &mut [R])
    requires { Padding f (length line.now) (length scratch.old) }
    ensures { R.floats scratch.new ≡ padded_into f border (R.floats line.now) (R.floats scratch.old) }
{
    pad(border, line, f - 2, right_pad(line.len(), f), scratch);
}

// The same where the line, n numbers from `from` on, lies in the buffer that takes the padded line, from `to` on.
pub fn pad_line_within<R: Real>(
    f: usize,
    border: Border,
    s: &mut [R],
    from: usize,
    n: usize,
    to: usize,
)
    requires { PaddingWithin f n (length s.old) from to }
    ensures { R.floats s.new ≡ placed (padded_at f border (take n (drop from (R.floats s.old)))) to (padded_length n f) (R.floats s.old) }
{
    pad_within(border, s, from, n, to, f - 2, right_pad(n, f));
}

// Both bands of a line, by way of the padded line at the front of the scratch. The tap lists have one lifetime, so that a bank can lend its fields.
pub fn line_bands<'a, R: Real>(
    low: &'a [R],
    high: &'a [R],
    f: usize,
    border: Border,
    line: &[R],
    approx: &mut [R],
    detail: &mut [R],
    scratch: &mut [R],
)
    requires { Lent f (length low.now) (length high.now) × Analysing f (length line.now) (length approx.old) (length detail.old) (length scratch.old) }
    ensures { (R.floats approx.new ≡ band R.format (R.floats low.now) f border (R.floats line.now))
        × (R.floats detail.new ≡ band R.format (R.floats high.now) f border (R.floats line.now))
        × (R.floats scratch.new ≡ padded_into f border (R.floats line.now) (R.floats scratch.old)) }
{
    pad_line(f, border, line, scratch);
    bands(low, high, f, scratch, approx, detail);
}
