// The whole of `agree`, from the text that it reads to the text that it prints.
#![tactic(auto)]

pub mod saying;
pub mod work;

ghost use Rattle.agreeing.specs.Agreements.{TextAgreed};

use crate::work::agree_text;
use answering::{MOST_NUMBERS, MOST_PADDED, MOST_PAIRS};
use printing::PrintError;

// Bytes that hold every answer.
pub const ROOM: usize = 64;

pub fn agree(text: &[u8], out: &mut [u8]) -> Result<usize, PrintError>
    ensures { TextAgreed text.now out.old result out.new }
{
    let mut numbers = [0.0f64; MOST_NUMBERS];
    let mut approx = [0.0f64; MOST_PAIRS];
    let mut detail = [0.0f64; MOST_PAIRS];
    let mut scratch = [0.0f64; MOST_PADDED];
    let mut approx2 = [0.0f64; MOST_PAIRS];
    let mut detail2 = [0.0f64; MOST_PAIRS];
    agree_text(
        text,
        &mut numbers,
        &mut approx,
        &mut detail,
        &mut scratch,
        &mut approx2,
        &mut detail2,
        out,
    )
}
