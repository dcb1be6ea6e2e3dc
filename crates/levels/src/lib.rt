// Analysis over levels: an upper crate over the line filter's promises.
#![tactic(auto)]

pub mod lists;
pub mod work;

ghost use Rattle.std.specs.Prelude.{◌≡◌};
ghost use Rattle.levels.specs.Analyses.{answer_of, Analysed};

use bank::Bank;
use packed::depth::scratch_need;
use packed::{LevelsError, packed_answer};

// The tests, on lengths alone.
#[tactic(auto, unfolding(crate::specs::Analyses::answer_of))]
pub fn levels_answer(
    n: usize,
    f: usize,
    levels: usize,
    packed: usize,
    scratch: usize,
) -> Result<(), LevelsError>
    ensures { result ≡ answer_of n f levels packed scratch }
{
    packed_answer(n, f, levels, packed)?;
    let need = scratch_need(n, f);
    if scratch < need {
        return Err(LevelsError::ScratchSize {
            need,
            have: scratch,
        });
    }
    Ok(())
}

// A line over levels, into the packed buffer.
pub fn analyse_levels(
    bank: Bank,
    line: &[f64],
    levels: usize,
    packed: &mut [f64],
    scratch: &mut [f64],
) -> Result<(), LevelsError>
    ensures { Analysed bank.low bank.high bank.taps bank.border line.now levels packed.old scratch.old result packed.new scratch.new }
{
    let f = bank.taps;
    let border = bank.border;
    // lent in place, the whole bank would be copied
    let low = bank.low;
    let high = bank.high;
    lists::analyse_levels(&low, &high, f, border, line, levels, packed, scratch)
}
