// Replays a short list from standard input, on every engine.
#![tactic(auto)]

use questions::replay;
use questions::saying::say;

const INPUT: i32 = 0;

fn main() {
    let mut list = [0u8; 65536];
    let n = io::read_full(INPUT, &mut list);
    say(replay(&list[..n]));
}
