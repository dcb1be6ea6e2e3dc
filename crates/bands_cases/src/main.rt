// What `bands` and then `agree` answer to each file that the arguments name, below a line with its name; and what `agree` would print of bands that part.
#![tactic(auto)]

use agreeing::ROOM;
use agreeing::saying::print_parting;
use bands_run::{INPUT, OUTPUT};
use parting::finding::parting;
use std::env;
use std::fs::File;
use std::os::fd::AsRawFd;

// No descriptor is this.
const NONE: i32 = -1;

fn answer_file(rt: &HostRuntime, name: &str) {
    let Ok(file) = File::open(rt, name) else {
        io::write_all(OUTPUT, b"cannot be opened\n");
        return;
    };
    bands_run::run_on(file.as_raw_fd(), OUTPUT);
    answer_again(rt, name);
}

// Opened anew, so that it is read from its first byte again.
fn answer_again(rt: &HostRuntime, name: &str) {
    let Ok(again) = File::open(rt, name) else {
        agree_run::run_on(NONE, OUTPUT);
        return;
    };
    agree_run::run_on(again.as_raw_fd(), OUTPUT);
}

fn answer_case(rt: &HostRuntime, name: &str) {
    io::write_all(OUTPUT, name.as_bytes());
    io::write_all(OUTPUT, b"\n");
    answer_file(rt, name);
}

// An output that takes nothing is told. Standard input is empty here, and its answer is `refused 14`.
fn answer_onto(name: &[u8], to: i32) {
    io::write_all(OUTPUT, name);
    if bands_run::run_on(INPUT, to) {
        io::write_all(OUTPUT, b"taken\n");
        return;
    }
    io::write_all(OUTPUT, b"not taken\n");
}

fn answer_untaken(rt: &HostRuntime) {
    answer_onto(b"closed\n", NONE);
    let Ok(full) = File::options().append(true).open(rt, "/dev/full") else {
        answer_onto(b"/dev/full\n", NONE);
        return;
    };
    answer_onto(b"/dev/full\n", full.as_raw_fd());
}

// The comparison of `agree`, and its text: no text has bands that part, so these are given.
fn tell_parting(approx2: &[f64], detail2: &[f64]) {
    let approx = [1.0f64, 2.0, 3.0];
    let detail = [4.0f64, 5.0, 6.0];
    let mut out = [0u8; ROOM];
    let printed = print_parting(parting(&approx, &detail, approx2, detail2), &mut out);
    let Ok(n) = printed else {
        return;
    };
    if n <= out.len() {
        io::write_all(OUTPUT, &out[..n]);
    }
}

fn tell_partings() {
    io::write_all(OUTPUT, b"parted\n");
    tell_parting(&[1.0f64, 2.0, -3.0], &[-4.0f64, 5.0, 6.0]);
    tell_parting(&[1.0f64, 2.0, 3.0], &[4.0f64, -5.0, -6.0]);
    tell_parting(&[1.0f64, 2.0, 3.0], &[4.0f64, 5.0, 6.0]);
}

fn main(rt: HostRuntime) -> std::io::Result<()> {
    // Argument 0 is the program's own name.
    for name in env::args(&rt)?.skip(1) {
        answer_case(&rt, name.as_str());
    }
    answer_untaken(&rt);
    tell_partings();
    Ok(())
}
