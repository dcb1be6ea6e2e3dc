// Planes, for C: the lengths to lend, the four bands and back, and two bands compared.
ghost use Rattle.isferghul.specs.Planes.{PlaneBandWidthTold, PlaneBandHeightTold, PlaneBandLengthTold, PlaneScratchTold, PlaneAnalysisTold, PlaneSynthesisTold, ComparisonTold};

use bank::taps::taps_of;
use comparing::compare_bands;
use plane_analysis::lists::analyse_plane;
use plane_synthesis::lists::synthesise_plane;
use plane_telling::{comparison_told, plane_told, size_told};
use planes::sizes;
use telling::borders::{border_of, no_border};
use telling::told::one;

pub fn isferghul_plane_band_width(
    width: usize,
    height: usize,
    f: usize,
    carried: &mut [usize; 2],
) -> u64
    ensures { PlaneBandWidthTold width height f carried.old result carried.new }
{
    size_told(sizes::plane_band_width(width, height, f), carried)
}

pub fn isferghul_plane_band_height(
    width: usize,
    height: usize,
    f: usize,
    carried: &mut [usize; 2],
) -> u64
    ensures { PlaneBandHeightTold width height f carried.old result carried.new }
{
    size_told(sizes::plane_band_height(width, height, f), carried)
}

pub fn isferghul_plane_band_length(
    width: usize,
    height: usize,
    f: usize,
    carried: &mut [usize; 2],
) -> u64
    ensures { PlaneBandLengthTold width height f carried.old result carried.new }
{
    size_told(sizes::plane_band_length(width, height, f), carried)
}

pub fn isferghul_plane_scratch(
    width: usize,
    height: usize,
    f: usize,
    carried: &mut [usize; 2],
) -> u64
    ensures { PlaneScratchTold width height f carried.old result carried.new }
{
    size_told(sizes::plane_scratch(width, height, f), carried)
}

pub fn isferghul_analyse_plane<'a>(
    border: usize,
    low: &'a [f64],
    high: &'a [f64],
    plane: &[f64],
    w: usize,
    h: usize,
    ll: &mut [f64],
    lh: &mut [f64],
    hl: &mut [f64],
    hh: &mut [f64],
    scratch: &mut [f64],
    carried: &mut [usize; 2],
) -> u64
    ensures { PlaneAnalysisTold border low.now high.now plane.now w h ll.old lh.old hl.old hh.old scratch.old carried.old
        result ll.new lh.new hl.new hh.new scratch.new carried.new }
{
    if no_border(border) {
        return one(26, border, carried);
    }
    let f = taps_of(low.len(), high.len());
    let b = border_of(border);
    let answer = analyse_plane(low, high, f, b, plane, w, h, ll, lh, hl, hh, scratch);
    plane_told(answer, carried)
}

// No border: synthesis reads none.
pub fn isferghul_synthesise_plane<'a>(
    low: &'a [f64],
    high: &'a [f64],
    ll: &[f64],
    lh: &[f64],
    hl: &[f64],
    hh: &[f64],
    w: usize,
    h: usize,
    plane: &mut [f64],
    scratch: &mut [f64],
    carried: &mut [usize; 2],
) -> u64
    ensures { PlaneSynthesisTold low.now high.now ll.now lh.now hl.now hh.now w h plane.old scratch.old carried.old
        result plane.new scratch.new carried.new }
{
    let f = taps_of(low.len(), high.len());
    let answer = synthesise_plane(low, high, f, ll, lh, hl, hh, w, h, plane, scratch);
    plane_told(answer, carried)
}

pub fn isferghul_compare_bands(
    first: &[f64],
    second: &[f64],
    width: usize,
    height: usize,
    carried: &mut [usize; 2],
) -> u64
    ensures { ComparisonTold first.now second.now width height carried.old result carried.new }
{
    comparison_told(compare_bands(first, second, width, height), carried)
}
