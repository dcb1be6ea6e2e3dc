// Answers about planes and bands told to C, as `telling` tells the others.
#![tactic(auto)]

ghost use Rattle.planes.specs.Answers as Answers;
ghost use Rattle.comparing.specs.Comparings as Comparings;
ghost use Rattle.telling.specs.Told.{Told};
ghost use Rattle.plane_telling.specs.Comparisons.{number_told};

use comparing::{Compared, ComparingError};
use planes::PlanesError;
use telling::told::{one, two};

pub fn plane_told(answer: Result<(), PlanesError>, carried: &mut [usize; 2]) -> u64
    ensures { Told (Answers.number_of answer) (Answers.values_of answer) carried.old result carried.new }
{
    match answer {
        Ok(()) => 0,
        Err(PlanesError::MinFilterSize { n, f }) => two(1, n, f, carried),
        Err(PlanesError::ApproxDetailsSize(l)) => one(2, l, carried),
        Err(PlanesError::OutputSizeIsNotValid { have, need }) => two(4, have, need, carried),
        Err(PlanesError::ZeroedBaseSize) => 7,
        Err(PlanesError::InputSize { need, have }) => two(10, need, have, carried),
        Err(PlanesError::Limit) => 11,
        Err(PlanesError::Taps) => 12,
    }
}

pub fn size_told(answer: Result<usize, PlanesError>, carried: &mut [usize; 2]) -> u64
    ensures { Told (Answers.size_number answer) (Answers.size_values answer) carried.old result carried.new }
{
    match answer {
        Ok(l) => one(0, l, carried),
        Err(refusal) => plane_told(Err(refusal), carried),
    }
}

// 27 says that the bands differ, and is no refusal.
pub fn comparison_told(answer: Result<Compared, ComparingError>, carried: &mut [usize; 2]) -> u64
    ensures { Told (number_told answer) (Comparings.values_of answer) carried.old result carried.new }
{
    match answer {
        Ok(Compared::Equal) => 0,
        Ok(Compared::Differs { column, row }) => two(27, column, row, carried),
        Err(ComparingError::ZeroedBaseSize) => 7,
        Err(ComparingError::InputSize { need, have }) => two(10, need, have, carried),
        Err(ComparingError::Limit) => 11,
    }
}
