// The scan of two bands: sizes have been tested.
ghost use Rattle.std.specs.Prelude.{◌≡◌, ◌*◌, length};
ghost use Rattle.comparing.specs.Comparings.{differs, found_in};

use crate::Compared;

// Whether the bits differ; a NaN is a NaN, and the zeros are two.
pub fn differ(x: f64, y: f64) -> bool
    ensures { result ≡ differs x y }
{
    if x.is_nan() || y.is_nan() {
        return x.is_nan() != y.is_nan();
    }
    f64::to_bits(x) != f64::to_bits(y)
}

// The first place in stored order where the bits differ, or equal.
pub fn first_difference(first: &[f64], second: &[f64], width: usize, height: usize) -> Compared
    requires { (length first.now ≡ width * height) × (length second.now ≡ width * height) }
    ensures { result ≡ found_in first.now second.now width height }
{
    let mut found = Compared::Equal;
    'scan: for column in 0..width {
        for row in 0..height {
            let at = column * height + row;
            if differ(first[at], second[at]) {
                found = Compared::Differs { column, row };
                break 'scan;
            }
        }
    }
    found
}
