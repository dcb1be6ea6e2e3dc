// Analysis of a plane: an upper crate over the line filter's promises.
#![tactic(auto)]

pub mod lists;
pub mod work;

ghost use Rattle.std.specs.Prelude.{◌≡◌};
ghost use Rattle.plane_analysis.specs.Analyses.{answer_of, Analysed};

use bank::Bank;
use planes::needs::band_need;
use planes::{PlanesError, bands_answer, held_answer};

// The tests, on lengths alone.
#[tactic(auto, using(planes::specs::Tested::held_done), unfolding(crate::specs::Analyses::answer_of))]
pub fn plane_analysis_answer(
    width: usize,
    height: usize,
    f: usize,
    plane: usize,
    scratch: usize,
    ll: usize,
    lh: usize,
    hl: usize,
    hh: usize,
) -> Result<(), PlanesError>
    ensures { result ≡ answer_of width height f plane scratch ll lh hl hh }
{
    held_answer(width, height, f, plane, scratch)?;
    if width < f {
        return Err(PlanesError::MinFilterSize { n: width, f });
    }
    if height < f {
        return Err(PlanesError::MinFilterSize { n: height, f });
    }
    bands_answer(band_need(width, height, f), ll, lh, hl, hh)
}

// The four bands of a plane w wide and h high, each column by column.
pub fn analyse_plane(
    bank: Bank,
    plane: &[f64],
    w: usize,
    h: usize,
    ll: &mut [f64],
    lh: &mut [f64],
    hl: &mut [f64],
    hh: &mut [f64],
    scratch: &mut [f64],
) -> Result<(), PlanesError>
    ensures { Analysed bank.low bank.high bank.taps bank.border plane.now w h ll.old lh.old hl.old hh.old scratch.old
        result ll.new lh.new hl.new hh.new scratch.new }
{
    let f = bank.taps;
    let border = bank.border;
    // lent in place, the whole bank would be copied
    let low = bank.low;
    let high = bank.high;
    lists::analyse_plane(&low, &high, f, border, plane, w, h, ll, lh, hl, hh, scratch)
}
