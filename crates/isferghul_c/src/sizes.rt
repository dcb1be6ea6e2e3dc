// The lengths to lend, for C: the exports, each that of its name in `isferghul`.
ghost use Rattle.isferghul.specs.Sizes.{BandLengthTold, LineLengthTold, AnalysisScratchTold, ConvolutionScratchTold};

use isferghul::sizes;

#[unsafe(no_mangle)]
pub extern "C" fn isferghul_band_length(n: usize, f: usize, carried: &mut [usize; 2]) -> u64
    ensures { BandLengthTold n f carried.old result carried.new }
{
    sizes::isferghul_band_length(n, f, carried)
}

#[unsafe(no_mangle)]
pub extern "C" fn isferghul_line_length(m: usize, f: usize, carried: &mut [usize; 2]) -> u64
    ensures { LineLengthTold m f carried.old result carried.new }
{
    sizes::isferghul_line_length(m, f, carried)
}

#[unsafe(no_mangle)]
pub extern "C" fn isferghul_analysis_scratch(n: usize, f: usize, carried: &mut [usize; 2]) -> u64
    ensures { AnalysisScratchTold n f carried.old result carried.new }
{
    sizes::isferghul_analysis_scratch(n, f, carried)
}

#[unsafe(no_mangle)]
pub extern "C" fn isferghul_convolution_scratch(
    n: usize,
    f: usize,
    centre: i64,
    carried: &mut [usize; 2],
) -> u64
    ensures { ConvolutionScratchTold n f centre carried.old result carried.new }
{
    sizes::isferghul_convolution_scratch(n, f, centre, carried)
}
