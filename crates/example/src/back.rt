// There and back in one call, which is exact: 50 times the line, and for an odd line 50 times the border's next sample behind it.
use crate::{banks, show};
use border::Border;
use exact::{BackError, there_and_back};
use synthesis::SynthesisError;

fn told(refusal: SynthesisError) {
    match refusal {
        SynthesisError::OutputSizeIsNotValid { have, need } => {
            show::number(b"refused 4, have", have);
            show::number(b"need", need);
        }
        _ => show::word(b"refused"),
    }
}

fn shown(answer: Result<(), BackError>, out: &[f64]) {
    match answer {
        Ok(()) => show::word(b"there and back"),
        Err(BackError::Analysis(_)) => show::word(b"refused on the way there"),
        Err(BackError::Synthesis(refusal)) => told(refusal),
    }
    show::floats(b"out", out);
}

fn back(border: Border, out: &mut [f64]) {
    let line = [5.0, -2.0, 3.0, -4.0, 9.0];
    let mut approx = [7.0f64; 4];
    let mut detail = [7.0f64; 4];
    let mut scratch = [7.0f64; 10];
    let answer = there_and_back(
        banks::example(border),
        &line,
        &mut approx,
        &mut detail,
        &mut scratch,
        out,
    );
    shown(answer, out);
}

// By a second pair: 16 times the line.
fn by_two_pairs(border: Border) {
    let made = banks::five_three(border);
    let line = [5.0, -2.0, 3.0, -4.0, 9.0, 2.0, -6.0];
    let mut approx = [7.0f64; 6];
    let mut detail = [7.0f64; 6];
    let mut scratch = [7.0f64; 16];
    let mut out = [7.0f64; 8];
    let answer = there_and_back(
        made.bank,
        &line,
        &mut approx,
        &mut detail,
        &mut scratch,
        &mut out,
    );
    shown(answer, &out);
}

pub fn returned() {
    back(Border::Clamp, &mut [7.0f64; 6]);
    back(Border::Wrap, &mut [7.0f64; 6]);
    back(Border::Reflect101, &mut [7.0f64; 6]);
    back(Border::Mirror, &mut [7.0f64; 6]);
    back(Border::Mirror101, &mut [7.0f64; 6]);
    // A refusal says why and leaves every buffer as it was.
    back(Border::Wrap, &mut [7.0f64; 5]);
    by_two_pairs(Border::Mirror101);
}
