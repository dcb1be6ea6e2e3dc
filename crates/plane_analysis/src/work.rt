// Rows, then columns, for entries to share: sizes have been tested.
// The scratch holds both bands of each row, a row after another, then their crossing, a column after another, then one padded line.
ghost use Rattle.std.specs.Prelude.{◌≡◌, ◌+◌, length};
ghost use Rattle.std.specs.Float.{binary64};
ghost use Rattle.bank.specs.Lengths.{padded_length, Lent};
ghost use Rattle.plane_analysis.specs.Works.{line_bands, Rowing, Rowed, Columning, Still, Analysing, Split};

use analysis::work::{bands, bands_within, pad_line, pad_line_within};
use bank::lengths::{dwt_length, padded_length};
use border::Border;
use tables::work::cross;

// Both bands of each row.
fn rows(
    low: &[f64],
    high: &[f64],
    f: usize,
    border: Border,
    plane: &[f64],
    width: usize,
    height: usize,
    m: usize,
    start: usize,
    scratch: &mut [f64],
)
    requires { Lent f (length low.now) (length high.now) × Rowing f width height m (length plane.now) (length scratch.old) start }
    ensures { Rowed binary64 low.now high.now f border plane.now width height m (start + padded_length width f) scratch.old scratch.new }
{
    let end = start + padded_length(m, f);
    for r in 0..height {
        let from = r * width;
        let line = &plane[from..from + width];
        pad_line(f, border, line, &mut scratch[start..end]);
        bands_within(low, high, f, scratch, start, r * (m + m), m);
    }
}

// Both bands of m lines of `height` numbers that lie in the scratch from `base` on.
fn columns(
    low: &[f64],
    high: &[f64],
    f: usize,
    border: Border,
    scratch: &mut [f64],
    base: usize,
    m: usize,
    height: usize,
    start: usize,
    lo: &mut [f64],
    hi: &mut [f64],
)
    requires { Lent f (length low.now) (length high.now) × Columning f base m height start (length scratch.old) (length lo.old) (length hi.old) }
    ensures { (lo.new ≡ line_bands binary64 low.now f border base m height scratch.old)
        × (hi.new ≡ line_bands binary64 high.now f border base m height scratch.old)
        × Still start (start + padded_length height f) scratch.old scratch.new }
{
    let b = dwt_length(height, f);
    let end = start + padded_length(b, f);
    for c in 0..m {
        pad_line_within(f, border, scratch, base + c * height, height, start);
        let from = c * b;
        let to = from + b;
        bands(
            low,
            high,
            f,
            &scratch[start..end],
            &mut lo[from..to],
            &mut hi[from..to],
        );
    }
}

// All four bands.
pub fn split_plane<'a>(
    low: &'a [f64],
    high: &'a [f64],
    f: usize,
    border: Border,
    plane: &[f64],
    width: usize,
    height: usize,
    ll: &mut [f64],
    lh: &mut [f64],
    hl: &mut [f64],
    hh: &mut [f64],
    scratch: &mut [f64],
)
    requires { Lent f (length low.now) (length high.now) × Analysing width height f (length plane.now) (length scratch.old) (length ll.old) (length lh.old) (length hl.old) (length hh.old) }
    ensures { Split binary64 low.now high.now f border plane.now width height scratch.old
        ll.new lh.new hl.new hh.new scratch.new }
{
    let m = dwt_length(width, f);
    let area = height * (m + m);
    let start = area + area;
    rows(
        low, high, f, border, plane, width, height, m, start, scratch,
    );
    cross(scratch, height, m + m);
    columns(
        low, high, f, border, scratch, area, m, height, start, ll, lh,
    );
    columns(
        low,
        high,
        f,
        border,
        scratch,
        area + m * height,
        m,
        height,
        start,
        hl,
        hh,
    );
}
