// Restoring several levels with each joined line divided by s, which takes off what a level multiplies by.
ghost use Rattle.std.specs.Prelude.{◌≡◌};
ghost use Rattle.restoring.specs.declared.divided.DividedError.TheVariants.{Refused};
ghost use Rattle.restoring.specs.Dividings.{answer_of, DividedBack, DividedOut};

use crate::work::front;
use crate::{lists, restoring_answer};
use bank::Bank;
use bank::sizes::bad_taps;
use dividing::bad_divisor;
use packed::LevelsError;

// Why a line is not restored with a divisor.
#[derive(Clone, Copy, Debug, PartialEq, Eq)]
pub enum DividedError {
    Divisor,
    Refused(LevelsError),
}

impl From<LevelsError> for DividedError {
    ghost from_gives = { λ e r. r ≡ Refused e };

    fn from(e: LevelsError) -> DividedError {
        DividedError::Refused(e)
    }
}

// The tests: taps, then s, then the lengths.
#[tactic(auto, unfolding(crate::specs::Dividings::answer_of))]
pub fn divided_answer(
    n: usize,
    f: usize,
    s: f64,
    levels: usize,
    packed: usize,
    first: usize,
    second: usize,
) -> Result<(), DividedError>
    ensures { result ≡ answer_of n f s levels packed first second }
{
    if bad_taps(f) {
        return Err(DividedError::Refused(LevelsError::Taps));
    }
    if bad_divisor(s) {
        return Err(DividedError::Divisor);
    }
    restoring_answer(n, f, levels, packed, first, second)?;
    Ok(())
}

// The line comes to stand where `restore_levels` leaves it.
pub fn restore_divided(
    bank: Bank,
    s: f64,
    packed: &[f64],
    n: usize,
    levels: usize,
    first: &mut [f64],
    second: &mut [f64],
) -> Result<(), DividedError>
    ensures { DividedBack bank.lowback bank.highback bank.taps s packed.now n levels first.old second.old result first.new second.new }
{
    let f = bank.taps;
    // lent in place, the whole bank would be copied
    let low = bank.lowback;
    let high = bank.highback;
    lists::restore_divided(&low, &high, f, s, packed, n, levels, first, second)
}

// The same, answered with the line itself, the front of the buffer that holds it; the empty part where `divided_answer` refuses.
pub fn divided_line<'a>(
    bank: Bank,
    s: f64,
    packed: &[f64],
    n: usize,
    levels: usize,
    first: &'a mut [f64],
    second: &'a mut [f64],
) -> &'a mut [f64]
    ensures { DividedOut bank.lowback bank.highback bank.taps s packed.now n levels first.entry second.entry result }
{
    let f = bank.taps;
    // lent in place, the whole bank would be copied
    let lows = bank.lowback;
    let highs = bank.highback;
    let answer = lists::restore_divided(&lows, &highs, f, s, packed, n, levels, first, second);
    let Ok(()) = answer else {
        return &mut first[..0];
    };
    front(n, f, levels, first, second)
}
