// One place of the packed buffer, for C: the exports, each that of its name in `isferghul`.
ghost use Rattle.isferghul.specs.Levels.{PlaceTold};

use isferghul::places;

#[unsafe(no_mangle)]
pub extern "C" fn isferghul_read_place(
    packed: &[f64],
    n: usize,
    f: usize,
    levels: usize,
    level: usize,
    place: usize,
    value: &mut [f64; 1],
    carried: &mut [usize; 2],
) -> u64
    ensures { PlaceTold n f levels level place packed.now value.old carried.old result value.new carried.new }
{
    places::isferghul_read_place(packed, n, f, levels, level, place, value, carried)
}
