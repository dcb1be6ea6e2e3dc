// What became of a list, in a line of text.
use crate::{Replayed, Stop};

fn at_line(line: usize, what: &[u8]) {
    io::write_all(1, b", then line ");
    io::print_decimal(1, line as u64);
    io::write_all(1, what);
}

pub fn say(replayed: Replayed) {
    io::print_decimal(1, replayed.agree as u64);
    io::write_all(1, b" agree");
    match replayed.stop {
        None => {}
        Some(Stop::Differs(line)) => at_line(line, b" differs"),
        Some(Stop::Unreadable(line)) => at_line(line, b" cannot be read"),
    }
    io::write_all(1, b"\n");
}
