// One line of numbers.
ghost use Rattle.std.specs.Prelude.{◌≡◌, ◌≤◌, ◌+◌, ◌<◌, length};
ghost use Rattle.texts.specs.Texts.{longest_text};
ghost use Rattle.parsing.specs.Steps.{separates, number_by, ended_by, kept_on, LineRead};

use phases::{Phase, closed, step, value};

// The place behind a line, and how many numbers it has.
#[derive(Clone, Copy)]
pub struct Line {
    pub next: usize,
    pub count: usize,
}

fn separates(c: u8) -> bool
    ensures { result ≡ separates c }
{
    c == b' ' || c == b'\n'
}

// A number that has ended goes to its place, if the buffer reaches there; answers how many there are then.
fn keep_number(negative: bool, size: u32, c: u8, out: &mut [f64], count: usize) -> usize
    requires { count < longest_text }
    ensures { (result ≡ count + length (number_by negative size c)) × (out.new ≡ kept_on (number_by negative size c) out.old count) }
{
    if !separates(c) {
        return count;
    }
    if count < out.len() {
        out[count] = value(negative, size);
    }
    count + 1
}

fn keep(phase: Phase, c: u8, out: &mut [f64], count: usize) -> usize
    requires { count < longest_text }
    ensures { (result ≡ count + length (ended_by phase c)) × (out.new ≡ kept_on (ended_by phase c) out.old count) }
{
    match phase {
        Phase::Number { negative, size } => keep_number(negative, size, c, out, count),
        Phase::Fresh | Phase::Next | Phase::Minus | Phase::Closed | Phase::Broken => count,
    }
}

// The line that begins at `from`, or what there is of one that does not end; its numbers as far as `out` reaches.
pub fn read_line(text: &[u8], from: usize, out: &mut [f64]) -> Result<Line, Line>
    requires { (from ≤ length text.now) × (length text.now ≤ longest_text) }
    ensures { LineRead text.now from out.old result out.new }
{
    let mut phase = Phase::Fresh;
    let mut count = 0usize;
    for at in from..text.len() {
        let c = text[at];
        count = keep(phase, c, out, count);
        phase = step(phase, c);
        if closed(phase) {
            return Ok(Line {
                next: at + 1,
                count,
            });
        }
    }
    Err(Line {
        next: text.len(),
        count,
    })
}
