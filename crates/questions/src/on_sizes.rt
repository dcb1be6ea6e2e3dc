// The lengths to lend, by their operation.
use crate::on_lengths;
use crate::parts::Line;
use isferghul::{depths, planar, sizes, taps};

pub fn ask(line: &Line, told: &mut [usize; 2]) -> Option<u64> {
    let [first, second, third, fourth] = line.scalars::<4>();
    Some(match line.scalar(0) {
        4 => sizes::isferghul_band_length(first, second, told),
        5 => sizes::isferghul_line_length(first, second, told),
        6 => sizes::isferghul_analysis_scratch(first, second, told),
        7 => sizes::isferghul_convolution_scratch(first, second, line.signed(3), told),
        9 => depths::isferghul_packed_length(first, second, third, told),
        10 => depths::isferghul_levels_scratch(first, second, third, told),
        11 => depths::isferghul_restoring_length(first, second, third, told),
        12 => depths::isferghul_most_levels(first, second, told),
        13 => depths::isferghul_level_part(first, second, third, fourth, told),
        17 => planar::isferghul_plane_band_width(first, second, third, told),
        18 => planar::isferghul_plane_band_height(first, second, third, told),
        19 => planar::isferghul_plane_band_length(first, second, third, told),
        20 => planar::isferghul_plane_scratch(first, second, third, told),
        24 => taps::isferghul_two_pairs(first, second, third, fourth),
        _ => return on_lengths::ask(line, told),
    })
}
