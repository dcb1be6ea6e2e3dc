// Floats of either width by their bits, each in a word of 64; every NaN is one.
use crate::floats::{Call, Lent};
use crate::{asking, on_lines_f32};
use std::num::{
    f32_from_bits_with_nan, f32_to_bits_with_nan, f64_from_bits_with_nan, f64_to_bits_with_nan,
};

pub trait Width: Copy {
    const ZERO: Self;

    // The most lists that a call is lent.
    const LENT: usize;

    fn float(word: u64) -> Self;

    fn alike(self, word: u64) -> bool;

    // The call that a line tells; nothing where there is none.
    fn ask(call: &Call<'_, Self>, lent: &mut Lent<'_, Self>) -> Option<u64>;
}

impl Width for f64 {
    const ZERO: f64 = 0.0;

    const LENT: usize = 5;

    fn float(word: u64) -> f64 {
        f64_from_bits_with_nan(word)
    }

    fn alike(self, word: u64) -> bool {
        f64_to_bits_with_nan(self) == f64_to_bits_with_nan(f64_from_bits_with_nan(word))
    }

    fn ask(call: &Call<'_, f64>, lent: &mut Lent<'_, f64>) -> Option<u64> {
        asking::ask(call, lent)
    }
}

// A word that is no float's is read as zero, and is like none.
impl Width for f32 {
    const ZERO: f32 = 0.0;

    const LENT: usize = 4;

    fn float(word: u64) -> f32 {
        match u32::try_from(word) {
            Ok(bits) => f32_from_bits_with_nan(bits),
            Err(_) => 0.0,
        }
    }

    fn alike(self, word: u64) -> bool {
        match u32::try_from(word) {
            Ok(bits) => {
                f32_to_bits_with_nan(self) == f32_to_bits_with_nan(f32_from_bits_with_nan(bits))
            }
            Err(_) => false,
        }
    }

    fn ask(call: &Call<'_, f32>, lent: &mut Lent<'_, f32>) -> Option<u64> {
        on_lines_f32::ask(call, lent)
    }
}
