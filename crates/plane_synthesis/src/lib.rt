// Synthesis of a plane: an upper crate over the line filter's promises.
#![tactic(auto)]

pub mod lists;
pub mod work;

ghost use Rattle.std.specs.Prelude.{◌≡◌};
ghost use Rattle.plane_synthesis.specs.Syntheses.{sides_of, answer_of, Synthesised};
ghost use Rattle.planes.specs.Works.{Sided};

use bank::Bank;
use bank::lengths::{dwt_length, idwt_length};
use planes::needs::band_need;
use planes::{PlanesError, bands_answer, held_answer};

// Whether synthesis gives these sides; they have been tested for size.
#[tactic(auto, using(bank::specs::Tested::sound_pairs))]
fn sides_answer(width: usize, height: usize, f: usize) -> Result<(), PlanesError>
    requires { Sided width height f }
    ensures { result ≡ sides_of width height f }
{
    let tall = idwt_length(dwt_length(height, f), f);
    if height != tall {
        return Err(PlanesError::OutputSizeIsNotValid {
            have: height,
            need: tall,
        });
    }
    let wide = idwt_length(dwt_length(width, f), f);
    if width != wide {
        return Err(PlanesError::OutputSizeIsNotValid {
            have: width,
            need: wide,
        });
    }
    Ok(())
}

// The tests, on lengths alone.
#[tactic(auto, using(planes::specs::Tested::held_done), unfolding(crate::specs::Syntheses::answer_of))]
pub fn plane_synthesis_answer(
    width: usize,
    height: usize,
    f: usize,
    plane: usize,
    scratch: usize,
    ll: usize,
    lh: usize,
    hl: usize,
    hh: usize,
) -> Result<(), PlanesError>
    ensures { result ≡ answer_of width height f plane scratch ll lh hl hh }
{
    held_answer(width, height, f, plane, scratch)?;
    bands_answer(band_need(width, height, f), ll, lh, hl, hh)?;
    sides_answer(width, height, f)
}

// The plane w wide and h high that four bands give; what the target held is gone.
pub fn synthesise_plane(
    bank: Bank,
    ll: &[f64],
    lh: &[f64],
    hl: &[f64],
    hh: &[f64],
    w: usize,
    h: usize,
    plane: &mut [f64],
    scratch: &mut [f64],
) -> Result<(), PlanesError>
    ensures { Synthesised bank.lowback bank.highback bank.taps ll.now lh.now hl.now hh.now w h plane.old scratch.old
        result plane.new scratch.new }
{
    let f = bank.taps;
    // lent in place, the whole bank would be copied
    let low = bank.lowback;
    let high = bank.highback;
    lists::synthesise_plane(&low, &high, f, ll, lh, hl, hh, w, h, plane, scratch)
}
