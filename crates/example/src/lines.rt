// Both bands of a line, and the line from them.
use crate::{banks, show};
use analysis::analyse;
use bank::sizes::band_length;
use border::Border;
use synthesis::synthesise;

pub fn bands() {
    let bank = banks::example(Border::Clamp);
    let line = [10.0, 20.0, 30.0, 40.0];
    // How much to lend is asked of the library.
    if let Ok(m) = band_length(4, bank.taps) {
        show::number(b"numbers in a band", m);
    }
    let mut approx = [0.0f64; 3];
    let mut detail = [0.0f64; 3];
    let mut scratch = [0.0f64; 8];
    let Ok(()) = analyse(bank, &line, &mut approx, &mut detail, &mut scratch) else {
        return;
    };
    show::floats(b"approximations", &approx);
    show::floats(b"details", &detail);
    // Synthesis adds onto what the output holds.
    let mut out = [0.0f64; 4];
    let Ok(()) = synthesise(bank, &approx, &detail, &mut out) else {
        return;
    };
    show::floats(b"joined", &out);
}
