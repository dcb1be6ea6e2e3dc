// Making a bank.
ghost use Rattle.std.specs.Prelude.{◌≡◌};
ghost use Rattle.bank.specs.Banks.{answer_of_four, held_in, no_bank, BankMade, MirrorMade, PairsMade};

use crate::Bank;
use crate::sizes::bad_taps;
use crate::work::{held, low_pass_to_high, zeros};
use border::Border;
use numbers::real::Real;

#[derive(Drop)]
pub enum Making {
    Done,
    Taps,
}

// The answer, and the bank beside it, of no taps where it is refused: no Result, since the promise says what bank stands there (`BankMade`).
#[derive(Drop)]
pub struct Made<R: Copy = f64> {
    pub answer: Making,
    pub bank: Bank<R>,
}

fn done<R: Real>(
    low: [R; 64],
    high: [R; 64],
    lowback: [R; 64],
    highback: [R; 64],
    taps: usize,
    border: Border,
) -> Made<R>
    ensures { (result.answer ≡ Making.Done) × (held_in (R.floats result.bank.low) (R.floats result.bank.high) (R.floats result.bank.lowback) (R.floats result.bank.highback) result.bank.taps result.bank.border ≡ held_in (R.floats low) (R.floats high) (R.floats lowback) (R.floats highback) taps border) }
{
    Made {
        answer: Making::Done,
        bank: Bank {
            low,
            high,
            lowback,
            highback,
            taps,
            border,
        },
    }
}

fn refused<R: Real>(border: Border) -> Made<R>
    ensures { (result.answer ≡ Making.Taps) × (held_in (R.floats result.bank.low) (R.floats result.bank.high) (R.floats result.bank.lowback) (R.floats result.bank.highback) result.bank.taps result.bank.border ≡ no_bank border) }
{
    Made {
        answer: Making::Taps,
        bank: Bank {
            low: zeros(),
            high: zeros(),
            lowback: zeros(),
            highback: zeros(),
            taps: 0,
            border,
        },
    }
}

#[tactic(auto, unfolding(crate::specs::Lengths::bad_taps))]
pub fn bank<R: Real>(low: &[R], high: &[R], border: Border) -> Made<R>
    ensures { BankMade (R.floats low.now) (R.floats high.now) border result.answer (held_in (R.floats result.bank.low) (R.floats result.bank.high) (R.floats result.bank.lowback) (R.floats result.bank.highback) result.bank.taps result.bank.border) }
{
    let f = low.len();
    if bad_taps(f) || high.len() != f {
        return refused(border);
    }
    let l = held(low);
    let h = held(high);
    done(l, h, l, h, f, border)
}

// A bank whose high taps follow from the low ones.
#[tactic(auto, unfolding(crate::specs::Lengths::bad_taps))]
pub fn mirrored<R: Real>(low: &[R], border: Border) -> Made<R>
    ensures { MirrorMade (R.floats low.now) border result.answer (held_in (R.floats result.bank.low) (R.floats result.bank.high) (R.floats result.bank.lowback) (R.floats result.bank.highback) result.bank.taps result.bank.border) }
{
    let f = low.len();
    if bad_taps(f) {
        return refused(border);
    }
    let l = held(low);
    let m = low_pass_to_high(low);
    done(l, m, l, m, f, border)
}

// Whether four lists make a bank, by their lengths alone.
pub fn pairs_answer(low: usize, high: usize, lowback: usize, highback: usize) -> Making
    ensures { result ≡ answer_of_four low high lowback highback }
{
    if bad_taps(low) || high != low || lowback != low || highback != low {
        return Making::Taps;
    }
    Making::Done
}

// A bank whose way back has a pair of its own.
#[tactic(auto, using(crate::specs::Pairs::alike))]
pub fn two_pairs<R: Real>(
    low: &[R],
    high: &[R],
    lowback: &[R],
    highback: &[R],
    border: Border,
) -> Made<R>
    ensures { PairsMade (R.floats low.now) (R.floats high.now) (R.floats lowback.now) (R.floats highback.now) border result.answer (held_in (R.floats result.bank.low) (R.floats result.bank.high) (R.floats result.bank.lowback) (R.floats result.bank.highback) result.bank.taps result.bank.border) }
{
    let answer = pairs_answer(low.len(), high.len(), lowback.len(), highback.len());
    let Making::Done = answer else {
        return refused(border);
    };
    let l = held(low);
    let h = held(high);
    let sl = held(lowback);
    let sh = held(highback);
    done(l, h, sl, sh, low.len(), border)
}
