// What a program does that answers a text, as `bands` does: it reads the text, has it answered, and writes the answer.
#![tactic(auto)]

ghost use Rattle.std.specs.Prelude.{◌≡◌, ℕ, ◌<◌, ◌≤◌, ◌^◌, length};
ghost use Rattle.answering.specs.Answers.{size_in};

use answering::{ROOMIEST, answer};
use parsing::LONGEST_TEXT;
use printing::PrintError;

// One byte more than may be read tells that the text is longer.
pub const MOST_READ: usize = LONGEST_TEXT + 1;

// The descriptors that a program begins with.
pub const INPUT: i32 = 0;

pub const OUTPUT: i32 = 1;

pub const ERRORS: i32 = 2;

// A text that was printed at the front of `out`.
pub fn write_printed(printed: Result<usize, PrintError>, out: &[u8], to: i32) -> bool
    requires { size_in printed ≤ length out.now }
{
    match printed {
        Ok(n) => io::write_all(to, &out[..n]),
        // Not where there was room.
        Err(_) => false,
    }
}

// Whether all of an answer was taken, which ROOM bytes hold, as io::write_all tells: no contract says what is written, nor that what was taken arrives.
pub fn run_by<const ROOM: usize, F: FnOnce(&[u8], &mut [u8]) -> Result<usize, PrintError>>(
    answer: F,
    from: i32,
    to: i32,
) -> bool
    requires small { ROOM < 2 ^ 63 }
    requires callable { F.IsAlwaysCallable answer }
    requires whole { (text : _) (x : _) (printed : _) (y : _) → F.post answer text x printed y → length x.now ≡ ROOM → (n : ℕ) × (printed ≡ Ok n) × (n ≤ ROOM) }
{
    let mut text = [0u8; MOST_READ];
    let mut out = [0u8; ROOM];
    let n = io::read_full(from, &mut text);
    let printed = answer(&text[..n], &mut out);
    write_printed(printed, &out, to)
}

pub fn run_on(from: i32, to: i32) -> bool {
    run_by::<ROOMIEST, _>(answer, from, to)
}
