// Planes, for C: the lengths to lend, the four bands and back, and two bands compared: the exports, each that of its name in `isferghul`.
ghost use Rattle.isferghul.specs.Planes.{PlaneBandWidthTold, PlaneBandHeightTold, PlaneBandLengthTold, PlaneScratchTold, PlaneAnalysisTold, PlaneSynthesisTold, ComparisonTold};

use isferghul::planar;

#[unsafe(no_mangle)]
pub extern "C" fn isferghul_plane_band_width(
    width: usize,
    height: usize,
    f: usize,
    carried: &mut [usize; 2],
) -> u64
    ensures { PlaneBandWidthTold width height f carried.old result carried.new }
{
    planar::isferghul_plane_band_width(width, height, f, carried)
}

#[unsafe(no_mangle)]
pub extern "C" fn isferghul_plane_band_height(
    width: usize,
    height: usize,
    f: usize,
    carried: &mut [usize; 2],
) -> u64
    ensures { PlaneBandHeightTold width height f carried.old result carried.new }
{
    planar::isferghul_plane_band_height(width, height, f, carried)
}

#[unsafe(no_mangle)]
pub extern "C" fn isferghul_plane_band_length(
    width: usize,
    height: usize,
    f: usize,
    carried: &mut [usize; 2],
) -> u64
    ensures { PlaneBandLengthTold width height f carried.old result carried.new }
{
    planar::isferghul_plane_band_length(width, height, f, carried)
}

#[unsafe(no_mangle)]
pub extern "C" fn isferghul_plane_scratch(
    width: usize,
    height: usize,
    f: usize,
    carried: &mut [usize; 2],
) -> u64
    ensures { PlaneScratchTold width height f carried.old result carried.new }
{
    planar::isferghul_plane_scratch(width, height, f, carried)
}

#[unsafe(no_mangle)]
pub extern "C" fn isferghul_analyse_plane<'a>(
    border: usize,
    low: &'a [f64],
    high: &'a [f64],
    plane: &[f64],
    w: usize,
    h: usize,
    ll: &mut [f64],
    lh: &mut [f64],
    hl: &mut [f64],
    hh: &mut [f64],
    scratch: &mut [f64],
    carried: &mut [usize; 2],
) -> u64
    ensures { PlaneAnalysisTold border low.now high.now plane.now w h ll.old lh.old hl.old hh.old scratch.old carried.old
        result ll.new lh.new hl.new hh.new scratch.new carried.new }
{
    planar::isferghul_analyse_plane(
        border, low, high, plane, w, h, ll, lh, hl, hh, scratch, carried,
    )
}

#[unsafe(no_mangle)]
pub extern "C" fn isferghul_synthesise_plane<'a>(
    low: &'a [f64],
    high: &'a [f64],
    ll: &[f64],
    lh: &[f64],
    hl: &[f64],
    hh: &[f64],
    w: usize,
    h: usize,
    plane: &mut [f64],
    scratch: &mut [f64],
    carried: &mut [usize; 2],
) -> u64
    ensures { PlaneSynthesisTold low.now high.now ll.now lh.now hl.now hh.now w h plane.old scratch.old carried.old
        result plane.new scratch.new carried.new }
{
    planar::isferghul_synthesise_plane(low, high, ll, lh, hl, hh, w, h, plane, scratch, carried)
}

#[unsafe(no_mangle)]
pub extern "C" fn isferghul_compare_bands(
    first: &[f64],
    second: &[f64],
    width: usize,
    height: usize,
    carried: &mut [usize; 2],
) -> u64
    ensures { ComparisonTold first.now second.now width height carried.old result carried.new }
{
    planar::isferghul_compare_bands(first, second, width, height, carried)
}
