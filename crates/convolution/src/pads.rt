// What the pads of a kernel about its centre ask of the scratch, and the limits of a line, a kernel and a centre.
ghost use Rattle.std.specs.Prelude.{◌≡◌};
ghost use Rattle.convolution.specs.Pads.{beyond, centre_of};
ghost use Rattle.convolution.specs.Sizes.{ScratchSized};

use crate::reach::from_filter;
use border::rule::Place;
use numbers::LONGEST;

// Why no length is given.
#[derive(Clone, Copy, Debug, PartialEq, Eq)]
pub enum ScratchError {
    ZeroedBaseSize,
    Limit,
}

// The centre by its sign: the only function here that computes with signed numbers.
pub fn split(centre: i64) -> Place
    ensures { centre_of result ≡ centre }
{
    if centre < 0 {
        Place::Before((-1 - centre) as usize)
    } else {
        Place::At(centre as usize)
    }
}

// More than 1,048,576 samples, more than 64 taps, or a centre that 32 bits do not hold.
#[tactic(auto, using(crate::specs::Places::beyond_before, crate::specs::Places::beyond_at), unfolding(crate::specs::Pads::beyond))]
pub fn beyond(n: usize, f: usize, centre: Place) -> bool
    ensures { result ≡ beyond n f (centre_of centre) }
{
    let (Place::Before(k) | Place::At(k)) = centre;
    n > LONGEST || f > 64 || k > 2147483647
}

// How much scratch convolution of n samples with f taps about a centre needs: none for an empty kernel.
#[tactic(auto, using(crate::specs::Tested::kernel_of, crate::specs::Places::nears, crate::specs::Places::within))]
pub fn convolution_scratch(n: usize, f: usize, centre: i64) -> Result<usize, ScratchError>
    ensures { ScratchSized n f centre result }
{
    let place = split(centre);
    if beyond(n, f, place) {
        return Err(ScratchError::Limit);
    }
    if n == 0 {
        return Err(ScratchError::ZeroedBaseSize);
    }
    if f == 0 {
        return Ok(0);
    }
    let p = from_filter(f, place);
    Ok(n + p.left + p.right)
}
