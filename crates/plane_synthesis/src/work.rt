// Columns, then rows, for entries to share: sizes have been tested.
// The scratch holds the joined columns one after another, those of the approximations first, and behind them their crossing, which has both bands of each row.
ghost use Rattle.std.specs.Prelude.{◌≡◌, length};
ghost use Rattle.std.specs.Float.{binary64};
ghost use Rattle.bank.specs.Lengths.{pairs, Lent};
ghost use Rattle.tables.specs.Tables.{stored};
ghost use Rattle.plane_synthesis.specs.Joins.{column_join};
ghost use Rattle.plane_synthesis.specs.Works.{Joins, step_join, Columning, Rowing, row_held, Synthesising, Joined};

use bank::lengths::dwt_length;
use synthesis::work::join_cleared;
use tables::work::cross;

// So many lines of n places, one after another: line c joined from m numbers of either list, `step` numbers further for each line.
fn joins<'a>(
    low: &'a [f64],
    high: &'a [f64],
    f: usize,
    lo: &[f64],
    hi: &[f64],
    step: usize,
    n: usize,
    count: usize,
    out: &mut [f64],
)
    requires { Lent f (length low.now) (length high.now) × Joins f (length lo.now) (length hi.now) step n count (length out.old) }
    ensures { out.new ≡ stored (step_join binary64 f low.now high.now step n lo.now hi.now) count }
{
    let m = dwt_length(n, f);
    for c in 0..count {
        let from = c * step;
        let to = from + m;
        let start = c * n;
        let end = start + n;
        join_cleared(
            low,
            high,
            f,
            &lo[from..to],
            &hi[from..to],
            &mut out[start..end],
        );
    }
}

// Each column of two bands joined, one after another.
fn columns<'a>(
    low: &'a [f64],
    high: &'a [f64],
    f: usize,
    lo: &[f64],
    hi: &[f64],
    width: usize,
    height: usize,
    out: &mut [f64],
)
    requires { Lent f (length low.now) (length high.now) × Columning width height f (length lo.now) (length hi.now) (length out.old) }
    ensures { out.new ≡ stored (column_join binary64 f low.now high.now height lo.now hi.now) (pairs width f) }
{
    let m = dwt_length(width, f);
    let b = dwt_length(height, f);
    joins(low, high, f, lo, hi, b, height, m, out);
}

// Each row joined from its bands, which lie one row after another, the approximations first.
fn rows<'a>(
    low: &'a [f64],
    high: &'a [f64],
    f: usize,
    bands: &[f64],
    width: usize,
    height: usize,
    plane: &mut [f64],
)
    requires { Lent f (length low.now) (length high.now) × Rowing width height f (length bands.now) (length plane.old) }
    ensures { plane.new ≡ stored (row_held binary64 f low.now high.now width (pairs width f) bands.now) height }
{
    let m = dwt_length(width, f);
    joins(
        low,
        high,
        f,
        bands,
        &bands[m..],
        m + m,
        width,
        height,
        plane,
    );
}

// The whole plane.
pub fn join_plane<'a>(
    low: &'a [f64],
    high: &'a [f64],
    f: usize,
    ll: &[f64],
    lh: &[f64],
    hl: &[f64],
    hh: &[f64],
    width: usize,
    height: usize,
    plane: &mut [f64],
    scratch: &mut [f64],
)
    requires { Lent f (length low.now) (length high.now) × Synthesising width height f (length plane.old) (length scratch.old) (length ll.now) (length lh.now) (length hl.now) (length hh.now) }
    ensures { Joined binary64 f low.now high.now width height ll.now lh.now hl.now hh.now scratch.old
        plane.new scratch.new }
{
    let m = dwt_length(width, f);
    let half = m * height;
    let area = half + half;
    let end = area + area;
    columns(low, high, f, ll, lh, width, height, &mut scratch[..half]);
    columns(
        low,
        high,
        f,
        hl,
        hh,
        width,
        height,
        &mut scratch[half..area],
    );
    cross(scratch, m + m, height);
    rows(low, high, f, &scratch[area..end], width, height, plane);
}
