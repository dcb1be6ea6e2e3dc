// The lengths that a user has to know to lend buffers.
ghost use Rattle.std.specs.Prelude.{◌≡◌};
ghost use Rattle.bank.specs.Lengths.{bad_taps};
ghost use Rattle.bank.specs.Sizes.{BandSized, LineSized, ScratchSized};

use crate::lengths::{dwt_length, idwt_length, padded_length};
use numbers::LONGEST;

// Why no length is given.
#[derive(Clone, Copy, Debug, PartialEq, Eq)]
pub enum SizeError {
    MinFilterSize { n: usize, f: usize },
    ZeroedBaseSize,
    Limit,
    Taps,
}

// Odd, none, or over 64.
#[tactic(auto, unfolding(crate::specs::Lengths::bad_taps))]
pub fn bad_taps(f: usize) -> bool
    ensures { result ≡ bad_taps f }
{
    f % 2 != 0 || f == 0 || 64 < f
}

// How long each band of n samples is.
#[tactic(auto, unfolding(crate::specs::Lengths::bad_taps))]
pub fn band_length(n: usize, f: usize) -> Result<usize, SizeError>
    ensures { BandSized n f result }
{
    if bad_taps(f) {
        return Err(SizeError::Taps);
    }
    if LONGEST < n {
        return Err(SizeError::Limit);
    }
    if n < f {
        return Err(SizeError::MinFilterSize { n, f });
    }
    Ok(dwt_length(n, f))
}

// How many places m pairs give.
#[tactic(auto, unfolding(crate::specs::Lengths::bad_taps))]
pub fn line_length(m: usize, f: usize) -> Result<usize, SizeError>
    ensures { LineSized m f result }
{
    if bad_taps(f) {
        return Err(SizeError::Taps);
    }
    if LONGEST < m {
        return Err(SizeError::Limit);
    }
    if 2 * m + 2 <= f {
        return Err(SizeError::ZeroedBaseSize);
    }
    Ok(idwt_length(m, f))
}

// How much scratch analysis of n samples needs.
pub fn analysis_scratch(n: usize, f: usize) -> Result<usize, SizeError>
    ensures { ScratchSized n f result }
{
    let m = band_length(n, f)?;
    Ok(padded_length(m, f))
}
