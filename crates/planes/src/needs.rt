// How long the bands and the scratch of a plane have to be; its sides have been tested.
ghost use Rattle.std.specs.Prelude.{◌≡◌};
ghost use Rattle.planes.specs.Lengths.{band_length, plane_scratch};
ghost use Rattle.planes.specs.Works.{Sided};

use bank::lengths::{dwt_length, padded_length};

// How long a band is.
pub fn band_need(width: usize, height: usize, f: usize) -> usize
    requires { Sided width height f }
    ensures { result ≡ band_length width height f }
{
    dwt_length(width, f) * dwt_length(height, f)
}

// How much scratch a plane needs.
pub fn scratch_need(width: usize, height: usize, f: usize) -> usize
    requires { Sided width height f }
    ensures { result ≡ plane_scratch width height f }
{
    let m = dwt_length(width, f);
    let b = dwt_length(height, f);
    4 * (m * height) + padded_length(m, f).max(padded_length(b, f))
}
