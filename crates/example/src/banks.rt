// Making a bank: of both tap lists, of the low taps by the mirror rule, or of two pairs.
use crate::show;
use bank::Bank;
use bank::making::{Made, Making, bank, mirrored, two_pairs};
use border::Border;

// P8's bank.
pub fn example(border: Border) -> Bank {
    let made = mirrored(&[3.0, 6.0, 2.0, -1.0], border);
    made.bank
}

// The 5/3 bank: a pair for the way there and another for the way back, all filled to six taps.
pub fn five_three(border: Border) -> Made {
    let low = [-1.0, 2.0, 6.0, 2.0, -1.0, 0.0];
    let high = [0.0, 0.0, -1.0, 2.0, -1.0, 0.0];
    let lowback = [0.0, 1.0, 2.0, 1.0, 0.0, 0.0];
    let highback = [0.0, -1.0, -2.0, 6.0, -2.0, -1.0];
    two_pairs(&low, &high, &lowback, &highback, border)
}

// The answer stands beside the bank; a refused one has no taps.
fn told(made: Made) {
    let answer = made.answer;
    match answer {
        Making::Done => show::word(b"a bank"),
        Making::Taps => show::word(b"refused 12"),
    }
    let bank = made.bank;
    show::number(b"taps", bank.taps);
}

pub fn made() {
    told(bank(
        &[3.0, 6.0, 2.0, -1.0],
        &[-1.0, -2.0, 6.0, -3.0],
        Border::Clamp,
    ));
    let bank = example(Border::Clamp);
    let high = bank.high;
    show::front(b"high by the mirror rule", &high, bank.taps);
    told(five_three(Border::Clamp));
}

pub fn refused() {
    told(bank(&[1.0, 1.0, 1.0, 1.0], &[1.0, -1.0], Border::Wrap));
    told(mirrored(&[1.0, 1.0, 1.0], Border::Wrap));
    let sums = [1.0, 1.0];
    told(two_pairs(&sums, &sums, &sums, &[1.0], Border::Wrap));
}
