// Numbers by their digits, a line each: an array is filled in from its end, before the newline there, and what is filled is laid.
ghost use Rattle.std.specs.Prelude.{◌≡◌, [], ◌∷◌, ◌++◌, ◌<◌};
ghost use Rattle.std.specs.Float.{binary64};
ghost use Rattle.std.specs.Float.Ieee.{to_bits};
ghost use Rattle.texts.specs.Prints.{hex_digit, bits_text};
ghost use Rattle.texts.specs.Texts.{newline, decimal as decimalText};
ghost use Rattle.laying.specs.Lays.{Lays};

use crate::bytes;

// A digit below 16, in upper case.
fn digit(d: u64) -> u8
    requires { d < 16 }
    ensures { result ≡ hex_digit d }
{
    if d < 10 {
        return 48 + d as u8;
    }
    55 + d as u8
}

// The bits of x; a NaN has the pattern that the definition gives it.
fn pattern(x: f64) -> u64
    ensures { result ≡ to_bits binary64 x }
{
    if x.is_nan() {
        return 0x7FF8000000000000;
    }
    x.to_bits()
}

// The 16 digits of a float's bits, and the end of their line.
pub fn bits(x: f64, out: &mut [u8]) -> usize
    ensures { Lays (bits_text x ++ (newline ∷ [])) out.old result out.new }
{
    let mut line = [b'\n'; 17];
    let mut rest = pattern(x);
    for i in (0..16).rev() {
        line[i] = digit(rest % 16);
        rest /= 16;
    }
    bytes(&line, out)
}

// The decimal digits of n, and the end of their line.
pub fn decimal(n: u64, out: &mut [u8]) -> usize
    ensures { Lays (decimalText n ++ (newline ∷ [])) out.old result out.new }
{
    let mut line = [b'\n'; 21];
    let mut rest = n;
    let mut i = 19usize;
    // Stops at the first digit, wherever that is.
    while 9 < rest {
        line[i] = digit(rest % 10);
        rest /= 10;
        i -= 1;
    }
    line[i] = digit(rest);
    bytes(&line[i..], out)
}
