// What `bands` reads, from a lent text into a lent buffer.
#![tactic(auto)]

pub mod line;
pub mod lists;

ghost use Rattle.std.specs.Prelude.{◌≡◌, ◌≤◌, length};
ghost use Rattle.texts.specs.Texts.{longest_text};
ghost use Rattle.modes.specs.Names.{mode_of};
ghost use Rattle.parsing.specs.Parses.{TextParsed};

use crate::lists::read_lists;
use border::Border;
use modes::{Mode, read_mode};

// What a text asks for: a border, and how many numbers each list has.
#[derive(Clone, Copy)]
pub struct Request {
    pub border: Border,
    pub low: usize,
    pub high: usize,
    pub samples: usize,
}

// Why a text is not parsed.
#[derive(Clone, Copy, Debug, PartialEq, Eq)]
pub enum ParseError {
    InputSize { need: usize, have: usize },
    Unreadable,
}

// The longest text.
pub const LONGEST_TEXT: usize = 4096;

// The lists behind the border's line.
fn parse_lists(text: &[u8], mode: Mode, numbers: &mut [f64]) -> Result<Request, ParseError>
    requires { (length text.now ≤ longest_text) × (mode_of text.now ≡ Some mode) }
    ensures { TextParsed text.now numbers.old result numbers.new }
{
    // A first look writes nowhere, so that a refusal changes nothing.
    let lists = match read_lists(text, mode.next, &mut numbers[..0]) {
        Ok(lists) => lists,
        Err(_) => return Err(ParseError::Unreadable),
    };
    let need = lists.low + lists.high + lists.samples;
    let have = numbers.len();
    if have < need {
        return Err(ParseError::InputSize { need, have });
    }
    // Done, as the first look was.
    let _ = read_lists(text, mode.next, numbers);
    Ok(Request {
        border: mode.border,
        low: lists.low,
        high: lists.high,
        samples: lists.samples,
    })
}

// The border and how many numbers each list has; the lists go one behind another to the front of `numbers`.
pub fn parse(text: &[u8], numbers: &mut [f64]) -> Result<Request, ParseError>
    ensures { TextParsed text.now numbers.old result numbers.new }
{
    if LONGEST_TEXT < text.len() {
        return Err(ParseError::Unreadable);
    }
    let mode = read_mode(text).ok_or(ParseError::Unreadable)?;
    parse_lists(text, mode, numbers)
}
