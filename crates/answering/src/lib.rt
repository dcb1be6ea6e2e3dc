// The whole of `bands`, from the text that it reads to the text that it prints.
#![tactic(auto)]

pub mod asking;
pub mod work;

ghost use Rattle.answering.specs.Answers.{TextAnswered};

use crate::work::answer_text;
use parsing::LONGEST_TEXT;
use printing::PrintError;

// The most numbers of a text: each has a byte at least, and one behind it.
pub const MOST_NUMBERS: usize = LONGEST_TEXT / 2;

// The most pairs of so many samples, which are those with 64 taps, and their padded length: written out, since a constant calls no function.
pub const MOST_PAIRS: usize = (MOST_NUMBERS + 64 - 1) / 2;

pub const MOST_PADDED: usize = 2 * MOST_PAIRS + 64 - 2;

// The most bytes of an answer.
pub const ROOMIEST: usize = 9 * LONGEST_TEXT;

pub fn answer(text: &[u8], out: &mut [u8]) -> Result<usize, PrintError>
    ensures { TextAnswered text.now out.old result out.new }
{
    let mut numbers = [0.0f64; MOST_NUMBERS];
    let mut approx = [0.0f64; MOST_PAIRS];
    let mut detail = [0.0f64; MOST_PAIRS];
    let mut scratch = [0.0f64; MOST_PADDED];
    answer_text(
        text,
        &mut numbers,
        &mut approx,
        &mut detail,
        &mut scratch,
        out,
    )
}
