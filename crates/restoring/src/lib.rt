// Restoring several levels between two lent buffers: an upper crate over the line filter's promises.
#![tactic(auto)]

pub mod divided;
pub mod lists;
pub mod work;

ghost use Rattle.std.specs.Prelude.{◌≡◌};
ghost use Rattle.restoring.specs.Restorings.{answer_of, Restored, HandedOut};

use bank::Bank;
use packed::depth::restoring_need;
use packed::{LevelsError, packed_answer};

// The tests, on lengths alone.
#[tactic(auto, unfolding(crate::specs::Restorings::answer_of))]
pub fn restoring_answer(
    n: usize,
    f: usize,
    levels: usize,
    packed: usize,
    first: usize,
    second: usize,
) -> Result<(), LevelsError>
    ensures { result ≡ answer_of n f levels packed first second }
{
    packed_answer(n, f, levels, packed)?;
    let need = restoring_need(n, f);
    if first < need {
        return Err(LevelsError::ScratchSize { need, have: first });
    }
    if second < need {
        return Err(LevelsError::ScratchSize { need, have: second });
    }
    Ok(())
}

// The line comes to stand at the front of the first buffer if the levels are odd in number, of the second if even.
pub fn restore_levels(
    bank: Bank,
    packed: &[f64],
    n: usize,
    levels: usize,
    first: &mut [f64],
    second: &mut [f64],
) -> Result<(), LevelsError>
    ensures { Restored bank.lowback bank.highback bank.taps packed.now n levels first.old second.old result first.new second.new }
{
    let f = bank.taps;
    // lent in place, the whole bank would be copied
    let low = bank.lowback;
    let high = bank.highback;
    lists::restore_levels(&low, &high, f, packed, n, levels, first, second)
}

// The same, answered with the line itself, the front of the buffer that holds it; the empty part where `restoring_answer` refuses.
pub fn restored_line<'a>(
    bank: Bank,
    packed: &[f64],
    n: usize,
    levels: usize,
    first: &'a mut [f64],
    second: &'a mut [f64],
) -> &'a mut [f64]
    ensures { HandedOut bank.lowback bank.highback bank.taps packed.now n levels first.entry second.entry result }
{
    let f = bank.taps;
    // lent in place, the whole bank would be copied
    let lows = bank.lowback;
    let highs = bank.highback;
    let answer = lists::restore_levels(&lows, &highs, f, packed, n, levels, first, second);
    let Ok(()) = answer else {
        return &mut first[..0];
    };
    let length = restoring_need(n, f);
    if levels.max(1) % 2 == 0 {
        &mut second[..length]
    } else {
        &mut first[..length]
    }
}
