// What the program `agree` does: it reads a text, has it answered, and writes the answer.
#![tactic(auto)]

use agreeing::{ROOM, agree};
use bands_run::run_by;

// Whether all of the answer was taken, as `bands` tells it.
pub fn run_on(from: i32, to: i32) -> bool {
    run_by::<ROOM, _>(agree, from, to)
}
