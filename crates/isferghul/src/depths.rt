// The lengths of levels, and where each stands in the packed buffer, for C.
ghost use Rattle.isferghul.specs.Levels.{PackedLengthTold, LevelsScratchTold, RestoringLengthTold, MostLevelsTold, LevelPartTold};

use level_telling::told;

pub fn isferghul_packed_length(n: usize, f: usize, levels: usize, carried: &mut [usize; 2]) -> u64
    ensures { PackedLengthTold n f levels carried.old result carried.new }
{
    told::level_size(level_sizes::packed_length(n, f, levels), carried)
}

pub fn isferghul_levels_scratch(n: usize, f: usize, levels: usize, carried: &mut [usize; 2]) -> u64
    ensures { LevelsScratchTold n f levels carried.old result carried.new }
{
    told::level_size(level_sizes::levels_scratch(n, f, levels), carried)
}

pub fn isferghul_restoring_length(
    n: usize,
    f: usize,
    levels: usize,
    carried: &mut [usize; 2],
) -> u64
    ensures { RestoringLengthTold n f levels carried.old result carried.new }
{
    told::level_size(level_sizes::restoring_length(n, f, levels), carried)
}

pub fn isferghul_most_levels(n: usize, f: usize, carried: &mut [usize; 2]) -> u64
    ensures { MostLevelsTold n f carried.old result carried.new }
{
    told::level_size(level_sizes::most_levels(n, f), carried)
}

pub fn isferghul_level_part(
    n: usize,
    f: usize,
    levels: usize,
    level: usize,
    carried: &mut [usize; 2],
) -> u64
    ensures { LevelPartTold n f levels level carried.old result carried.new }
{
    told::level_part(level_sizes::level_part(n, f, levels, level), carried)
}
