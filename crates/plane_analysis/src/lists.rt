// Analysis of a plane by tap lists, for an entry that has a bank and for one that has the caller's own lists.
ghost use Rattle.std.specs.Prelude.{length};
ghost use Rattle.bank.specs.Lengths.{Counted};
ghost use Rattle.plane_analysis.specs.Analyses.{Analysed};

use crate::plane_analysis_answer;
use crate::work::split_plane;
use border::Border;
use planes::PlanesError;

// The four bands of a plane w wide and h high, each column by column.
pub fn analyse_plane<'a>(
    low: &'a [f64],
    high: &'a [f64],
    f: usize,
    border: Border,
    plane: &[f64],
    w: usize,
    h: usize,
    ll: &mut [f64],
    lh: &mut [f64],
    hl: &mut [f64],
    hh: &mut [f64],
    scratch: &mut [f64],
) -> Result<(), PlanesError>
    requires { Counted f (length low.now) (length high.now) }
    ensures { Analysed low.now high.now f border plane.now w h ll.old lh.old hl.old hh.old scratch.old
        result ll.new lh.new hl.new hh.new scratch.new }
{
    plane_analysis_answer(
        w,
        h,
        f,
        plane.len(),
        scratch.len(),
        ll.len(),
        lh.len(),
        hl.len(),
        hh.len(),
    )?;
    split_plane(low, high, f, border, plane, w, h, ll, lh, hl, hh, scratch);
    Ok(())
}
