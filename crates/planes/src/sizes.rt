// The lengths that a user of planes has to know to lend buffers.
#![tactic(auto, using(crate::specs::Tested::asked_done))]

ghost use Rattle.planes.specs.Answers.{WidthSized, HeightSized, BandSized, ScratchSized};

use crate::needs::{band_need, scratch_need};
use crate::{PlanesError, asked_answer};
use bank::lengths::dwt_length;

// How many columns a band has.
pub fn plane_band_width(width: usize, height: usize, f: usize) -> Result<usize, PlanesError>
    ensures { WidthSized width height f result }
{
    asked_answer(width, height, f)?;
    Ok(dwt_length(width, f))
}

// How many places each column of a band has.
pub fn plane_band_height(width: usize, height: usize, f: usize) -> Result<usize, PlanesError>
    ensures { HeightSized width height f result }
{
    asked_answer(width, height, f)?;
    Ok(dwt_length(height, f))
}

// How long a band is.
pub fn plane_band_length(width: usize, height: usize, f: usize) -> Result<usize, PlanesError>
    ensures { BandSized width height f result }
{
    asked_answer(width, height, f)?;
    Ok(band_need(width, height, f))
}

// How much scratch a plane needs, for analysis and for synthesis.
pub fn plane_scratch(width: usize, height: usize, f: usize) -> Result<usize, PlanesError>
    ensures { ScratchSized width height f result }
{
    asked_answer(width, height, f)?;
    Ok(scratch_need(width, height, f))
}
