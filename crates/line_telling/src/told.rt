// An answer told as its number, and what it carries in lent words; words that carry nothing stay.
ghost use Rattle.bank.specs.Sizes as Sizes;
ghost use Rattle.convolution.specs.Sizes as Scratches;
ghost use Rattle.analysis.specs.Analyses as Analyses;
ghost use Rattle.synthesis.specs.Syntheses as Syntheses;
ghost use Rattle.convolution.specs.Convolutions as Convolutions;
ghost use Rattle.telling.specs.Told.{Told};

use analysis::AnalysisError;
use bank::sizes::SizeError;
use convolution::ConvolutionError;
use convolution::pads::ScratchError;
use synthesis::SynthesisError;
use telling::told::{one, two};

pub fn size(answer: Result<usize, SizeError>, carried: &mut [usize; 2]) -> u64
    ensures { Told (Sizes.number_of answer) (Sizes.values_of answer) carried.old result carried.new }
{
    match answer {
        Ok(l) => one(0, l, carried),
        Err(SizeError::MinFilterSize { n, f }) => two(1, n, f, carried),
        Err(SizeError::ZeroedBaseSize) => 7,
        Err(SizeError::Limit) => 11,
        Err(SizeError::Taps) => 12,
    }
}

pub fn scratch(answer: Result<usize, ScratchError>, carried: &mut [usize; 2]) -> u64
    ensures { Told (Scratches.number_of answer) (Scratches.values_of answer) carried.old result carried.new }
{
    match answer {
        Ok(need) => one(0, need, carried),
        Err(ScratchError::ZeroedBaseSize) => 7,
        Err(ScratchError::Limit) => 11,
    }
}

pub fn analysis(answer: Result<(), AnalysisError>, carried: &mut [usize; 2]) -> u64
    ensures { Told (Analyses.number_of answer) (Analyses.values_of answer) carried.old result carried.new }
{
    match answer {
        Ok(()) => 0,
        Err(AnalysisError::MinFilterSize { n, f }) => two(1, n, f, carried),
        Err(AnalysisError::ApproxDetailsSize(l)) => one(2, l, carried),
        Err(AnalysisError::ScratchSize { need, have }) => two(5, need, have, carried),
        Err(AnalysisError::Limit) => 11,
        Err(AnalysisError::Taps) => 12,
    }
}

pub fn synthesis(answer: Result<(), SynthesisError>, carried: &mut [usize; 2]) -> u64
    ensures { Told (Syntheses.number_of answer) (Syntheses.values_of answer) carried.old result carried.new }
{
    match answer {
        Ok(()) => 0,
        Err(SynthesisError::ApproxDetailsNotMatches { approx, detail }) => two(
            3, approx, detail, carried,
        ),
        Err(SynthesisError::OutputSizeIsNotValid { have, need }) => two(4, have, need, carried),
        Err(SynthesisError::ZeroedBaseSize) => 7,
        Err(SynthesisError::Limit) => 11,
        Err(SynthesisError::Taps) => 12,
    }
}

pub fn convolution(answer: Result<(), ConvolutionError>, carried: &mut [usize; 2]) -> u64
    ensures { Told (Convolutions.number_of answer) (Convolutions.values_of answer) carried.old result carried.new }
{
    match answer {
        Ok(()) => 0,
        Err(ConvolutionError::ScratchSize { need, have }) => two(5, need, have, carried),
        Err(ConvolutionError::InOutSizesMismatch { line, out }) => two(6, line, out, carried),
        Err(ConvolutionError::ZeroedBaseSize) => 7,
        Err(ConvolutionError::MisconfiguredFilterCenter { size, f }) => two(8, size, f, carried),
        Err(ConvolutionError::Limit) => 11,
        Err(ConvolutionError::Reflect101Pad) => 13,
    }
}
