// How far a kernel reaches about its centre, and whether its border reaches as far: for entries to share, sizes have been tested.
ghost use Rattle.std.specs.Prelude.{◌≡◌, nat_abs};
ghost use Rattle.convolution.specs.Pads.{too_far, centre_of, left_pad, right_pad};
ghost use Rattle.convolution.specs.Works.{Kernel, ShortPads, Small};

use border::Border;
use border::rule::Place;

#[derive(Drop)]
pub struct Pads {
    pub left: usize,
    pub right: usize,
}

// The size of a centre.
pub fn size(centre: Place) -> usize
    requires { Small centre }
    ensures { result ≡ nat_abs (centre_of centre) }
{
    match centre {
        Place::Before(k) => k + 1,
        Place::At(c) => c,
    }
}

// The places in front of a line.
#[tactic(auto, using(crate::specs::Places::left_before, crate::specs::Places::left_at))]
fn left_pad(f: usize, centre: Place) -> usize
    requires { Kernel f (centre_of centre) }
    ensures { result ≡ left_pad f (centre_of centre) }
{
    let half = (f - 1) / 2;
    match centre {
        Place::Before(k) => half + (k + 1),
        Place::At(c) => half.saturating_sub(c),
    }
}

pub fn from_filter(f: usize, centre: Place) -> Pads
    requires { Kernel f (centre_of centre) }
    ensures { (result.left ≡ left_pad f (centre_of centre)) × (result.right ≡ right_pad f (centre_of centre)) }
{
    let left = left_pad(f, centre);
    Pads {
        left,
        right: f.saturating_sub(left),
    }
}

// Reflect101 alone does not reach over n - 2, with n above 1.
#[tactic(auto, unfolding(crate::specs::Pads::pad_over))]
pub fn too_far(border: Border, n: usize, left: usize, right: usize) -> bool
    requires { ShortPads left right }
    ensures { result ≡ too_far border n left right }
{
    n > 1 && (n < left + 2 || n < right + 2) && matches!(border, Border::Reflect101)
}
