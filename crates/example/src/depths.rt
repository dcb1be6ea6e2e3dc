// A line over two levels: its parts in the packed buffer, one place, and the line restored.
use crate::show;
use bank::Bank;
use bank::making::bank;
use border::Border;
use level_parts::{Reading, level_details, read_place};
use levels::analyse_levels;
use restoring::restored_line;

fn two(tap: f64) -> Bank {
    let made = bank(&[tap, tap], &[tap, -tap], Border::Wrap);
    made.bank
}

fn place(packed: &[f64], level: usize, place: usize) {
    let read = read_place(packed, 5, 2, 2, level, place);
    match read {
        Reading::Value(x) => show::floats(b"place", &[x]),
        Reading::NoSuchLevel(level) => show::number(b"no such level", level),
        Reading::NoSuchPlace(place) => show::number(b"no such place", place),
        Reading::Refused(_) => show::word(b"refused"),
    }
}

// The parts are parts of the packed buffer itself; level 0 names the last approximations.
fn parts_of(packed: &[f64]) {
    show::floats(b"details 1", level_details(packed, 5, 2, 2, 1));
    show::floats(b"details 2", level_details(packed, 5, 2, 2, 2));
    show::floats(b"approximations 2", level_details(packed, 5, 2, 2, 0));
    show::floats(b"no level 3", level_details(packed, 5, 2, 2, 3));
    place(packed, 2, 1);
    place(packed, 2, 2);
    place(packed, 3, 0);
}

pub fn parts() {
    let mut packed = [0.0f64; 7];
    let mut scratch = [0.0f64; 12];
    let line = [10.0, 20.0, 30.0, 40.0, 60.0];
    let answer = analyse_levels(two(1.0), &line, 2, &mut packed, &mut scratch);
    let Ok(()) = answer else {
        return;
    };
    parts_of(&packed);
}

// The line is the front of the buffer that holds it.
fn joined(packed: &[f64], levels: usize, first: &mut [f64], second: &mut [f64]) {
    let line = restored_line(two(1.0), packed, 5, levels, first, second);
    show::floats(b"restored", line);
    show::floats(b"first", first);
    show::floats(b"second", second);
}

// Split by halves and joined by ones, a line comes back, with the border's next sample behind an odd one.
fn back(levels: usize, packed: &mut [f64]) {
    let line = [3.0, -1.0, 4.0, -1.0, 5.0];
    let mut scratch = [0.0f64; 12];
    let answer = analyse_levels(two(0.5), &line, levels, packed, &mut scratch);
    let Ok(()) = answer else {
        return;
    };
    joined(packed, levels, &mut [7.0f64; 6], &mut [8.0f64; 8]);
}

// Two levels end in the second buffer, three in the first.
pub fn restored() {
    back(2, &mut [0.0f64; 7]);
    back(3, &mut [0.0f64; 7]);
}
