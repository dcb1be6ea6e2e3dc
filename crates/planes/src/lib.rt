// A plane and its four bands: here are their lengths and the tests that analysis and synthesis share, and no sums.
#![tactic(auto)]

pub mod needs;
pub mod sizes;

ghost use Rattle.std.specs.Prelude.{◌≡◌};
ghost use Rattle.planes.specs.Answers.{asked_of, held_of, bands_of};

use crate::needs::scratch_need;
use bank::sizes::bad_taps;
use tables::sides::too_large;

// Why there is no work on a plane.
#[derive(Clone, Copy, Debug, PartialEq, Eq)]
pub enum PlanesError {
    MinFilterSize { n: usize, f: usize },
    ApproxDetailsSize(usize),
    OutputSizeIsNotValid { have: usize, need: usize },
    ZeroedBaseSize,
    InputSize { need: usize, have: usize },
    Limit,
    Taps,
}

// Whether there is a plane to work on.
#[tactic(auto, unfolding(crate::specs::Answers::asked_of))]
pub fn asked_answer(width: usize, height: usize, f: usize) -> Result<(), PlanesError>
    ensures { result ≡ asked_of width height f }
{
    if bad_taps(f) {
        return Err(PlanesError::Taps);
    }
    if width == 0 || height == 0 {
        return Err(PlanesError::ZeroedBaseSize);
    }
    if too_large(width, height) {
        return Err(PlanesError::Limit);
    }
    Ok(())
}

// The same, and then whether the plane has its length and the scratch has room.
#[tactic(auto, using(crate::specs::Tested::asked_done), unfolding(crate::specs::Answers::held_of))]
pub fn held_answer(
    width: usize,
    height: usize,
    f: usize,
    plane: usize,
    scratch: usize,
) -> Result<(), PlanesError>
    ensures { result ≡ held_of width height f plane scratch }
{
    asked_answer(width, height, f)?;
    let area = width * height;
    if plane != area {
        return Err(PlanesError::InputSize {
            need: area,
            have: plane,
        });
    }
    let need = scratch_need(width, height, f);
    if scratch < need {
        return Err(PlanesError::InputSize {
            need,
            have: scratch,
        });
    }
    Ok(())
}

// Whether each band has its length.
#[tactic(auto, unfolding(crate::specs::Answers::bands_of))]
pub fn bands_answer(
    length: usize,
    ll: usize,
    lh: usize,
    hl: usize,
    hh: usize,
) -> Result<(), PlanesError>
    ensures { result ≡ bands_of length ll lh hl hh }
{
    if ll != length {
        return Err(PlanesError::ApproxDetailsSize(ll));
    }
    if lh != length {
        return Err(PlanesError::ApproxDetailsSize(lh));
    }
    if hl != length {
        return Err(PlanesError::ApproxDetailsSize(hl));
    }
    if hh != length {
        return Err(PlanesError::ApproxDetailsSize(hh));
    }
    Ok(())
}
