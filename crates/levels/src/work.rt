// One level after another, for entries to share: sizes have been tested.
// The packed buffer has room for both bands of every level, so that the approximations lie there until the next level takes their place.
ghost use Rattle.std.specs.Prelude.{◌≡◌, length};
ghost use Rattle.std.specs.Float.{binary64};
ghost use Rattle.analysis.specs.Lines.{padded_into};
ghost use Rattle.bank.specs.Lengths.{Lent};
ghost use Rattle.levels.specs.Lines.{packed_line, padded_lines};
ghost use Rattle.levels.specs.Works.{line_held, Held, Splitting};

use analysis::work::{bands_beside, pad_line};
use bank::lengths::dwt_length;
use border::Border;

// The line of level k + 1, padded: the line itself for the first, else the n approximations in the packed buffer.
fn pad_level(
    f: usize,
    border: Border,
    line: &[f64],
    packed: &[f64],
    k: usize,
    start: usize,
    n: usize,
    scratch: &mut [f64],
)
    requires { Held f (length line.now) (length packed.now) start n (length scratch.old) }
    ensures { scratch.new ≡ padded_into f border (line_held line.now packed.now k start n) scratch.old }
{
    if k == 0 {
        pad_line(f, border, line, scratch);
    } else {
        let end = start + n;
        pad_line(f, border, &packed[start..end], scratch);
    }
}

// Each level's details, and behind them its approximations, which the next level splits.
pub fn split<'a>(
    low: &'a [f64],
    high: &'a [f64],
    f: usize,
    border: Border,
    line: &[f64],
    levels: usize,
    packed: &mut [f64],
    scratch: &mut [f64],
)
    requires { Lent f (length low.now) (length high.now) × Splitting (length line.now) f levels (length packed.old) (length scratch.old) }
    ensures { (packed.new ≡ packed_line binary64 low.now high.now f border line.now levels)
        × (scratch.new ≡ padded_lines binary64 low.now f border line.now levels scratch.old) }
{
    let mut start = 0usize;
    let mut n = line.len();
    for k in 0..levels {
        pad_level(f, border, line, packed, k, start, n, scratch);
        n = dwt_length(n, f);
        let end = start + (n + n);
        bands_beside(low, high, f, scratch, &mut packed[start..end], n);
        start += n;
    }
}
