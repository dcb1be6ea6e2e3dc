#![tactic(auto)]

use bands_run::{ERRORS, INPUT, OUTPUT};

// A program cannot set its status, so a line on standard error tells where not all of the output was taken.
fn main() {
    if !agree_run::run_on(INPUT, OUTPUT) {
        io::write_all(ERRORS, b"agree: not all of the output was taken\n");
    }
}
