// The packed buffer of several levels: details 1, details 2 and so on, then the last approximations. Here are its lengths and tests, and no sums.
#![tactic(auto)]

pub mod depth;

ghost use Rattle.std.specs.Prelude.{◌≡◌};
ghost use Rattle.packed.specs.declared.PartError.TheVariants as part;
ghost use Rattle.packed.specs.Answers.{asked_of, held_of};

use crate::depth::{down, packed_need};
use bank::sizes::bad_taps;
use numbers::LONGEST;

// Why levels are refused.
#[derive(Clone, Copy, Debug, PartialEq, Eq)]
pub enum LevelsError {
    MinFilterSize { n: usize, f: usize },
    ScratchSize { need: usize, have: usize },
    BufferWasTooSmallForLevel,
    InputSize { need: usize, have: usize },
    Limit,
    Taps,
}

// Why there is no part of a level; 22 carries the level.
#[derive(Clone, Copy, Debug, PartialEq, Eq)]
pub enum PartError {
    NoSuchLevel(usize),
    Refused(LevelsError),
}

impl From<LevelsError> for PartError {
    ghost from_gives = { λ e r. r ≡ part.Refused e };

    fn from(e: LevelsError) -> PartError {
        PartError::Refused(e)
    }
}

// Whether each level that is asked for has a line to split.
#[tactic(auto, using(crate::specs::Tested::not_all), unfolding(crate::specs::Answers::asked_of))]
pub fn asked_answer(n: usize, f: usize, levels: usize) -> Result<(), LevelsError>
    ensures { result ≡ asked_of n f levels }
{
    if bad_taps(f) {
        return Err(LevelsError::Taps);
    }
    if LONGEST < n {
        return Err(LevelsError::Limit);
    }
    let asked = levels.max(1);
    if down(n, f, asked).levels == asked {
        return Ok(());
    }
    if 1 < levels {
        return Err(LevelsError::BufferWasTooSmallForLevel);
    }
    Err(LevelsError::MinFilterSize { n, f })
}

// The same, and then whether the packed buffer has its length.
#[tactic(auto, unfolding(crate::specs::Answers::held_of))]
pub fn packed_answer(n: usize, f: usize, levels: usize, packed: usize) -> Result<(), LevelsError>
    ensures { result ≡ held_of n f levels packed }
{
    asked_answer(n, f, levels)?;
    let need = packed_need(n, f, levels);
    if packed != need {
        return Err(LevelsError::InputSize { need, have: packed });
    }
    Ok(())
}
