// Synthesis of a plane by tap lists, for an entry that has a bank and for one that has the caller's own lists.
ghost use Rattle.std.specs.Prelude.{length};
ghost use Rattle.bank.specs.Lengths.{Counted};
ghost use Rattle.plane_synthesis.specs.Syntheses.{Synthesised};

use crate::plane_synthesis_answer;
use crate::work::join_plane;
use planes::PlanesError;

// The plane w wide and h high that four bands give; what the target held is gone.
pub fn synthesise_plane<'a>(
    low: &'a [f64],
    high: &'a [f64],
    f: usize,
    ll: &[f64],
    lh: &[f64],
    hl: &[f64],
    hh: &[f64],
    w: usize,
    h: usize,
    plane: &mut [f64],
    scratch: &mut [f64],
) -> Result<(), PlanesError>
    requires { Counted f (length low.now) (length high.now) }
    ensures { Synthesised low.now high.now f ll.now lh.now hl.now hh.now w h plane.old scratch.old
        result plane.new scratch.new }
{
    plane_synthesis_answer(
        w,
        h,
        f,
        plane.len(),
        scratch.len(),
        ll.len(),
        lh.len(),
        hl.len(),
        hh.len(),
    )?;
    join_plane(low, high, f, ll, lh, hl, hh, w, h, plane, scratch);
    Ok(())
}
