// Convolution of one line with a kernel about its centre.
#![tactic(auto)]

pub mod pads;
pub mod reach;
pub mod work;

ghost use Rattle.std.specs.Prelude.{◌≡◌};
ghost use Rattle.convolution.specs.Pads.{centre_of};
ghost use Rattle.convolution.specs.Convolutions.{answer_of, Convolved};

use crate::pads::{beyond, split};
use crate::reach::{Pads, from_filter, size, too_far};
use crate::work::sums;
use border::Border;
use border::pad::pad;
use border::rule::Place;
use numbers::copying::copy_to;
use numbers::real::Real;

// Why a line is not convolved.
#[derive(Clone, Copy, Debug, PartialEq, Eq)]
pub enum ConvolutionError {
    InOutSizesMismatch { line: usize, out: usize },
    ZeroedBaseSize,
    ScratchSize { need: usize, have: usize },
    MisconfiguredFilterCenter { size: usize, f: usize },
    Limit,
    Reflect101Pad,
}

// The tests, on lengths, the centre and the border alone.
#[tactic(auto, using(crate::specs::Tested::kernel_of, crate::specs::Places::nears, crate::specs::Places::within), unfolding(crate::specs::Convolutions::answer_of))]
pub fn convolution_answer(
    border: Border,
    line: usize,
    out: usize,
    f: usize,
    centre: Place,
    scratch: usize,
) -> Result<(), ConvolutionError>
    ensures { result ≡ answer_of border line out f (centre_of centre) scratch }
{
    if beyond(line, f, centre) {
        return Err(ConvolutionError::Limit);
    }
    if line != out {
        return Err(ConvolutionError::InOutSizesMismatch { line, out });
    }
    if line == 0 {
        return Err(ConvolutionError::ZeroedBaseSize);
    }
    if f == 0 {
        return Ok(());
    }
    let Pads { left, right } = from_filter(f, centre);
    let need = line + left + right;
    if scratch < need {
        return Err(ConvolutionError::ScratchSize {
            need,
            have: scratch,
        });
    }
    let size = size(centre);
    if f <= size {
        return Err(ConvolutionError::MisconfiguredFilterCenter { size, f });
    }
    if too_far(border, line, left, right) {
        return Err(ConvolutionError::Reflect101Pad);
    }
    Ok(())
}

// The convolution of a line, by way of the padded line at the front of the scratch; an empty kernel copies.
#[tactic(auto, using(crate::specs::Tested::convolving, crate::specs::Tested::copying))]
pub fn convolve<R: Real>(
    border: Border,
    line: &[R],
    out: &mut [R],
    scratch: &mut [R],
    kernel: &[R],
    centre: i64,
) -> Result<(), ConvolutionError>
    ensures { Convolved R.format border (R.floats line.now) (R.floats out.old) (R.floats scratch.old) (R.floats kernel.now) centre
        result (R.floats out.new) (R.floats scratch.new) }
{
    let n = line.len();
    let f = kernel.len();
    let place = split(centre);
    convolution_answer(border, n, out.len(), f, place, scratch.len())?;
    if f == 0 {
        copy_to(line, out, 0);
        return Ok(());
    }
    let Pads { left, right } = from_filter(f, place);
    let need = left + n + right;
    pad(border, line, left, right, scratch);
    sums(kernel, &scratch[..need], out);
    Ok(())
}
