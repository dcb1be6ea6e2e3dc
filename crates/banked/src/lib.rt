// The entries that take a bank, for the bench to count: a bank is made, and its entry called once or twice. The second call is what an entry costs.
// A large function that is called in two places is not inlined, so both are calls that know nothing of the bank.
// The other way has the same taps exchanged, so that an entry which read its pair would give other numbers.
#![tactic(auto)]

use analysis::analyse;
use bank::making::two_pairs;
use synthesis::synthesise;
use telling::borders::border_of;

// 0 is done.
#[unsafe(no_mangle)]
pub extern "C" fn banked_analyse(
    twice: bool,
    border: usize,
    low: &[f64],
    high: &[f64],
    line: &[f64],
    approx: &mut [f64],
    detail: &mut [f64],
    scratch: &mut [f64],
) -> u64 {
    let made = two_pairs(low, high, high, low, border_of(border));
    let held = made.bank;
    let Ok(()) = analyse(held, line, approx, detail, scratch) else {
        return 1;
    };
    if !twice {
        return 0;
    }
    let Ok(()) = analyse(held, line, approx, detail, scratch) else {
        return 1;
    };
    0
}

#[unsafe(no_mangle)]
pub extern "C" fn banked_synthesise(
    twice: bool,
    border: usize,
    low: &[f64],
    high: &[f64],
    approx: &[f64],
    detail: &[f64],
    out: &mut [f64],
) -> u64 {
    let made = two_pairs(high, low, low, high, border_of(border));
    let held = made.bank;
    let Ok(()) = synthesise(held, approx, detail, out) else {
        return 1;
    };
    if !twice {
        return 0;
    }
    let Ok(()) = synthesise(held, approx, detail, out) else {
        return 1;
    };
    0
}
