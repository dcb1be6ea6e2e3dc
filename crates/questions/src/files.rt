// A list in a file, replayed.
ghost use Rattle.std.specs.Prelude.{◌≡◌, length};

use crate::saying::say;
use crate::{Replayed, replay};
use std::fs::File;
use std::os::fd::AsRawFd;

const MOST: usize = 524288;

// Zeros for a list to be read into. Generic, since the prover would write out as many zeros.
fn room<const N: usize>() -> [u8; N]
    ensures { N ≡ length result }
{
    [0; N]
}

fn replay_file(rt: &HostRuntime, name: &str) -> Result<Replayed, &'static [u8]> {
    let file = File::open(rt, name).map_err(|_| b"cannot be opened\n".as_slice())?;
    let mut list = room::<MOST>();
    let n = io::read_full(file.as_raw_fd(), &mut list);
    // A list that fills the buffer may go on.
    if n == MOST {
        return Err(b"is too long\n");
    }
    Ok(replay(&list[..n]))
}

// What became of the list in a file, behind its name.
pub fn replay_named(rt: &HostRuntime, name: &str) {
    io::write_all(1, name.as_bytes());
    io::write_all(1, b": ");
    match replay_file(rt, name) {
        Ok(replayed) => say(replayed),
        Err(why) => {
            io::write_all(1, why);
        }
    }
}
