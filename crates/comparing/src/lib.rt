// Comparing two bands of a plane, column by column as they are stored.
#![tactic(auto)]

pub mod work;

ghost use Rattle.std.specs.Prelude.{◌≡◌};
ghost use Rattle.comparing.specs.Comparings.{tests_of, BandsCompared};

use crate::work::first_difference;
use tables::sides::too_large;

// What two bands are.
#[derive(Clone, Copy, Debug, PartialEq, Eq)]
pub enum Compared {
    Equal,
    Differs { column: usize, row: usize },
}

// Why two bands are not compared.
#[derive(Clone, Copy, Debug, PartialEq, Eq)]
pub enum ComparingError {
    ZeroedBaseSize,
    InputSize { need: usize, have: usize },
    Limit,
}

// The tests, on sides and lengths alone.
#[tactic(auto, using(tables::specs::Sides::within_limits), unfolding(crate::specs::Comparings::tests_of))]
pub fn comparing_answer(
    width: usize,
    height: usize,
    first: usize,
    second: usize,
) -> Result<(), ComparingError>
    ensures { result ≡ tests_of width height first second }
{
    if width == 0 || height == 0 {
        return Err(ComparingError::ZeroedBaseSize);
    }
    if too_large(width, height) {
        return Err(ComparingError::Limit);
    }
    let need = width * height;
    if first != need {
        return Err(ComparingError::InputSize { need, have: first });
    }
    if second != need {
        return Err(ComparingError::InputSize { need, have: second });
    }
    Ok(())
}

// The column and the row of the first place in stored order where the bits differ, or equal.
#[tactic(auto, using(crate::specs::Tested::refused, crate::specs::Tested::all_passed))]
pub fn compare_bands(
    first: &[f64],
    second: &[f64],
    width: usize,
    height: usize,
) -> Result<Compared, ComparingError>
    ensures { BandsCompared first.now second.now width height result }
{
    comparing_answer(width, height, first.len(), second.len())?;
    Ok(first_difference(first, second, width, height))
}
