// The lengths of levels, and where each stands in the packed buffer, for C: the exports, each that of its name in `isferghul`.
ghost use Rattle.isferghul.specs.Levels.{PackedLengthTold, LevelsScratchTold, RestoringLengthTold, MostLevelsTold, LevelPartTold};

use isferghul::depths;

#[unsafe(no_mangle)]
pub extern "C" fn isferghul_packed_length(
    n: usize,
    f: usize,
    levels: usize,
    carried: &mut [usize; 2],
) -> u64
    ensures { PackedLengthTold n f levels carried.old result carried.new }
{
    depths::isferghul_packed_length(n, f, levels, carried)
}

#[unsafe(no_mangle)]
pub extern "C" fn isferghul_levels_scratch(
    n: usize,
    f: usize,
    levels: usize,
    carried: &mut [usize; 2],
) -> u64
    ensures { LevelsScratchTold n f levels carried.old result carried.new }
{
    depths::isferghul_levels_scratch(n, f, levels, carried)
}

#[unsafe(no_mangle)]
pub extern "C" fn isferghul_restoring_length(
    n: usize,
    f: usize,
    levels: usize,
    carried: &mut [usize; 2],
) -> u64
    ensures { RestoringLengthTold n f levels carried.old result carried.new }
{
    depths::isferghul_restoring_length(n, f, levels, carried)
}

#[unsafe(no_mangle)]
pub extern "C" fn isferghul_most_levels(n: usize, f: usize, carried: &mut [usize; 2]) -> u64
    ensures { MostLevelsTold n f carried.old result carried.new }
{
    depths::isferghul_most_levels(n, f, carried)
}

#[unsafe(no_mangle)]
pub extern "C" fn isferghul_level_part(
    n: usize,
    f: usize,
    levels: usize,
    level: usize,
    carried: &mut [usize; 2],
) -> u64
    ensures { LevelPartTold n f levels level carried.old result carried.new }
{
    depths::isferghul_level_part(n, f, levels, level, carried)
}
