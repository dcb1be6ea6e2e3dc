// Synthesis of one line by the second engine, written from the rules: each place is gathered by itself, from the pairs that reach it.
// Of the first engine it has the tests and the answers, and no loop, copy or sum.
#![tactic(auto)]

pub mod lists;
pub mod work;

ghost use Rattle.std.specs.Float.{binary64};
ghost use Rattle.synthesis.specs.Syntheses.{Synthesised};

use bank::Bank;
use synthesis::SynthesisError;

// Both bands joined onto what the output held.
pub fn synthesise(
    bank: Bank,
    approx: &[f64],
    detail: &[f64],
    out: &mut [f64],
) -> Result<(), SynthesisError>
    ensures { Synthesised binary64 bank.lowback bank.highback bank.taps approx.now detail.now out.old result out.new }
{
    let f = bank.taps;
    // lent in place, the whole bank would be copied
    let low = bank.lowback;
    let high = bank.highback;
    lists::synthesise(&low, &high, f, approx, detail, out)
}
