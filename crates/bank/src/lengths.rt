// The lengths of the rules, for n samples, m pairs and f taps; sizes have been tested.
ghost use Rattle.std.specs.Prelude.{◌≡◌, ◌+◌, ◌*◌, ◌≤◌};
ghost use Rattle.bank.specs.Lengths.{pairs, spanned, right_pad, line_length, Sound};

// How many pairs n samples have.
pub fn dwt_length(n: usize, f: usize) -> usize
    requires { Sound n f }
    ensures { result ≡ pairs n f }
{
    (n + f - 1) / 2
}

// How many places m pairs give.
pub fn idwt_length(m: usize, f: usize) -> usize
    requires { Sound m f × (f ≤ 2 * m + 2) }
    ensures { result ≡ line_length m f }
{
    2 * m + 2 - f
}

// How long the padded line of m pairs is.
pub fn padded_length(m: usize, f: usize) -> usize
    requires { Sound m f }
    ensures { result ≡ spanned m f }
{
    2 * m + f - 2
}

// How many places stand behind n samples.
pub fn right_pad(n: usize, f: usize) -> usize
    requires { Sound n f }
    ensures { result ≡ right_pad n f }
{
    2 * dwt_length(n, f) - n
}
