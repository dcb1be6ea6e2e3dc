// A line divided by a whole number, place by place, and which floats are such numbers.
#![tactic(auto)]

ghost use Rattle.std.specs.Prelude.{◌≡◌};
ghost use Rattle.std.specs.Float.{binary64};
ghost use Rattle.dividing.specs.Divisions.{bad_divisor, divided, finished};

use std::num::{nearest_u64_to_f64, truncating_f64_to_u64};

// What is done to a joined line before it is trimmed and used.
// no trait or closure: `finished` of specs/ goes by these cases, and two impls with laws would say them again
#[derive(Clone, Copy)]
pub enum Finish {
    Kept,
    DividedBy(f64),
}

// Whether a float is not positive, not whole, or above 2^53.
pub fn bad_divisor(s: f64) -> bool
    ensures { result ≡ bad_divisor binary64 s }
{
    !(0.0 < s && s <= 9007199254740992.0 && nearest_u64_to_f64(truncating_f64_to_u64(s)) == s)
}

// Each place divided by s.
pub fn divide(line: &mut [f64], s: f64)
    ensures { line.new ≡ divided binary64 s line.old }
{
    for x in line.iter_mut() {
        *x /= s;
    }
}

// A joined line kept as it is, or divided.
pub fn finish_line(line: &mut [f64], how: Finish)
    ensures { line.new ≡ finished binary64 how line.old }
{
    match how {
        Finish::Kept => {}
        Finish::DividedBy(s) => divide(line, s),
    }
}
