// The lengths to lend, for C.
ghost use Rattle.isferghul.specs.Sizes.{BandLengthTold, LineLengthTold, AnalysisScratchTold, ConvolutionScratchTold};

use bank::sizes;
use convolution::pads;
use line_telling::told;

pub fn isferghul_band_length(n: usize, f: usize, carried: &mut [usize; 2]) -> u64
    ensures { BandLengthTold n f carried.old result carried.new }
{
    told::size(sizes::band_length(n, f), carried)
}

pub fn isferghul_line_length(m: usize, f: usize, carried: &mut [usize; 2]) -> u64
    ensures { LineLengthTold m f carried.old result carried.new }
{
    told::size(sizes::line_length(m, f), carried)
}

pub fn isferghul_analysis_scratch(n: usize, f: usize, carried: &mut [usize; 2]) -> u64
    ensures { AnalysisScratchTold n f carried.old result carried.new }
{
    told::size(sizes::analysis_scratch(n, f), carried)
}

pub fn isferghul_convolution_scratch(
    n: usize,
    f: usize,
    centre: i64,
    carried: &mut [usize; 2],
) -> u64
    ensures { ConvolutionScratchTold n f centre carried.old result carried.new }
{
    told::scratch(pads::convolution_scratch(n, f, centre), carried)
}
