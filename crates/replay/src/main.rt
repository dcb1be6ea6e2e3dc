// Replays each list that the arguments name.
#![tactic(auto)]

use questions::files::replay_named;
use std::env;

fn main(rt: HostRuntime) -> std::io::Result<()> {
    // Argument 0 is the program's own name.
    for name in env::args(&rt)?.skip(1) {
        replay_named(&rt, name.as_str());
    }
    Ok(())
}
