// What a call answers, against what its line says.
use crate::parts::Line;

// What a word holds before a call: the exports write to words that are lent, and leave one where they carry nothing.
pub const BLANK: usize = 0x0123_4567_89AB_CDEF;

// What a line says where no call is made.
const NO_CALL: u64 = 1000;

// Whether a number and what it carries are as the line says.
pub fn told(line: &Line, number: Option<u64>, carried: &[usize; 2]) -> bool {
    let said = line.part(1);
    let value = |i: usize| said.get(i).map_or(BLANK, |word| *word as usize);
    said.first().copied().unwrap_or(0) == number.unwrap_or(NO_CALL)
        && value(1) == carried[0]
        && value(2) == carried[1]
}
