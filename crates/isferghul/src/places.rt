// One place of the packed buffer, for C.
ghost use Rattle.isferghul.specs.Levels.{PlaceTold};

use level_parts::read_place;
use level_telling::told;

pub fn isferghul_read_place(
    packed: &[f64],
    n: usize,
    f: usize,
    levels: usize,
    level: usize,
    place: usize,
    value: &mut [f64; 1],
    carried: &mut [usize; 2],
) -> u64
    ensures { PlaceTold n f levels level place packed.now value.old carried.old result value.new carried.new }
{
    let answer = read_place(packed, n, f, levels, level, place);
    told::reading(answer, value, carried)
}
