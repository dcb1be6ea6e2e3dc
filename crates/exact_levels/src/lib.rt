// There and back over levels: a line into its packed buffer and back, each joined line divided, which gives the line back exactly where that can be.
#![tactic(auto)]

ghost use Rattle.std.specs.Prelude.{◌≡◌};
ghost use Rattle.exact_levels.specs.declared.LevelsBackError.TheVariants.{Analysis, Restoring};
ghost use Rattle.exact_levels.specs.Backs.{answer_of, ThereAndBack};

use bank::Bank;
use levels::{analyse_levels, levels_answer};
use packed::LevelsError;
use restoring::divided::{DividedError, divided_answer, restore_divided};

// Which way was refused, and how.
#[derive(Clone, Copy, Debug, PartialEq, Eq)]
pub enum LevelsBackError {
    Analysis(LevelsError),
    Restoring(DividedError),
}

impl From<LevelsError> for LevelsBackError {
    ghost from_gives = { λ e r. r ≡ Analysis e };

    fn from(e: LevelsError) -> LevelsBackError {
        LevelsBackError::Analysis(e)
    }
}

impl From<DividedError> for LevelsBackError {
    ghost from_gives = { λ e r. r ≡ Restoring e };

    fn from(e: DividedError) -> LevelsBackError {
        LevelsBackError::Restoring(e)
    }
}

// The tests: those of the way there, then those of the way back.
#[tactic(auto, unfolding(crate::specs::Backs::answer_of))]
pub fn levels_back_answer(
    n: usize,
    f: usize,
    s: f64,
    levels: usize,
    packed: usize,
    scratch: usize,
    first: usize,
    second: usize,
) -> Result<(), LevelsBackError>
    ensures { result ≡ answer_of n f s levels packed scratch first second }
{
    levels_answer(n, f, levels, packed, scratch)?;
    divided_answer(n, f, s, levels, packed, first, second)?;
    Ok(())
}

// Both ways, one entry after the other.
pub fn there_and_back_levels(
    bank: Bank,
    s: f64,
    line: &[f64],
    levels: usize,
    packed: &mut [f64],
    scratch: &mut [f64],
    first: &mut [f64],
    second: &mut [f64],
) -> Result<(), LevelsBackError>
    ensures { ThereAndBack bank.low bank.high bank.lowback bank.highback bank.taps bank.border s line.now levels packed.old scratch.old first.old second.old
        result packed.new scratch.new first.new second.new }
{
    let n = line.len();
    levels_back_answer(
        n,
        bank.taps,
        s,
        levels,
        packed.len(),
        scratch.len(),
        first.len(),
        second.len(),
    )?;
    analyse_levels(bank, line, levels, packed, scratch)?;
    restore_divided(bank, s, packed, n, levels, first, second)?;
    Ok(())
}
