// An answer told as its number, and what it carries in lent words; words that carry nothing stay.
ghost use Rattle.packed.specs.Answers as Answers;
ghost use Rattle.level_sizes.specs.Sizes as Sizes;
ghost use Rattle.restoring.specs.Dividings as Dividings;
ghost use Rattle.telling.specs.Told.{Told};
ghost use Rattle.level_telling.specs.Readings.{ReadingTold};

use level_parts::Reading;
use packed::depth::Part;
use packed::{LevelsError, PartError};
use restoring::divided::DividedError;
use telling::told::{one, two};

pub fn levels(answer: Result<(), LevelsError>, carried: &mut [usize; 2]) -> u64
    ensures { Told (Answers.number_of answer) (Answers.values_of answer) carried.old result carried.new }
{
    match answer {
        Ok(()) => 0,
        Err(LevelsError::MinFilterSize { n, f }) => two(1, n, f, carried),
        Err(LevelsError::ScratchSize { need, have }) => two(5, need, have, carried),
        Err(LevelsError::BufferWasTooSmallForLevel) => 9,
        Err(LevelsError::InputSize { need, have }) => two(10, need, have, carried),
        Err(LevelsError::Limit) => 11,
        Err(LevelsError::Taps) => 12,
    }
}

pub fn divided(answer: Result<(), DividedError>, carried: &mut [usize; 2]) -> u64
    ensures { Told (Dividings.number_of answer) (Dividings.values_of answer) carried.old result carried.new }
{
    match answer {
        Ok(()) => 0,
        Err(DividedError::Divisor) => 25,
        Err(DividedError::Refused(e)) => levels(Err(e), carried),
    }
}

pub fn level_size(answer: Result<usize, LevelsError>, carried: &mut [usize; 2]) -> u64
    ensures { Told (Sizes.size_number answer) (Sizes.size_values answer) carried.old result carried.new }
{
    match answer {
        Ok(l) => one(0, l, carried),
        Err(e) => levels(Err(e), carried),
    }
}

pub fn level_part(answer: Result<Part, PartError>, carried: &mut [usize; 2]) -> u64
    ensures { Told (Sizes.part_number answer) (Sizes.part_values answer) carried.old result carried.new }
{
    match answer {
        Ok(part) => two(0, part.start, part.count, carried),
        Err(PartError::NoSuchLevel(level)) => one(22, level, carried),
        Err(PartError::Refused(e)) => levels(Err(e), carried),
    }
}

// A float that was read goes to the lent value.
pub fn reading(answer: Reading, value: &mut [f64; 1], carried: &mut [usize; 2]) -> u64
    ensures { ReadingTold answer value.old carried.old result value.new carried.new }
{
    match answer {
        Reading::Value(x) => {
            value[0] = x;
            0
        }
        Reading::NoSuchLevel(level) => one(22, level, carried),
        Reading::NoSuchPlace(place) => one(23, place, carried),
        Reading::Refused(e) => levels(Err(e), carried),
    }
}
