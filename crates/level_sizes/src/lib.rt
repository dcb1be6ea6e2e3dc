// The lengths that a user of levels has to know: to lend buffers, and to find a level in the packed one.
#![tactic(auto)]

ghost use Rattle.level_sizes.specs.Sizes.{PackedSized, ScratchSized, RestoringSized, MostSized, PartSized};

use packed::depth::{Part, down, packed_need, part_of, restoring_need, scratch_need};
use packed::{LevelsError, PartError, asked_answer};

// How long the packed buffer is.
pub fn packed_length(n: usize, f: usize, levels: usize) -> Result<usize, LevelsError>
    ensures { PackedSized n f levels result }
{
    asked_answer(n, f, levels)?;
    Ok(packed_need(n, f, levels))
}

// How much scratch analysis over levels needs.
pub fn levels_scratch(n: usize, f: usize, levels: usize) -> Result<usize, LevelsError>
    ensures { ScratchSized n f levels result }
{
    asked_answer(n, f, levels)?;
    Ok(scratch_need(n, f))
}

// How long each work buffer of restoring has to be.
pub fn restoring_length(n: usize, f: usize, levels: usize) -> Result<usize, LevelsError>
    ensures { RestoringSized n f levels result }
{
    asked_answer(n, f, levels)?;
    Ok(restoring_need(n, f))
}

// The most levels that a line allows.
pub fn most_levels(n: usize, f: usize) -> Result<usize, LevelsError>
    ensures { MostSized n f result }
{
    asked_answer(n, f, 1)?;
    Ok(down(n, f, n).levels)
}

// Where a level's details begin in the packed buffer, and how many there are; level 0 names the last approximations.
pub fn level_part(n: usize, f: usize, levels: usize, level: usize) -> Result<Part, PartError>
    ensures { PartSized n f levels level result }
{
    asked_answer(n, f, levels)?;
    if levels.max(1) < level {
        return Err(PartError::NoSuchLevel(level));
    }
    let part = part_of(n, f, levels, level);
    Ok(part)
}
