// Reads a call and what it has to answer from a text, makes the call, and says whether number, carried values and every lent buffer agree.
#![tactic(auto)]

mod answers;
mod asking;
pub mod files;
mod floats;
mod on_banks;
mod on_direct;
mod on_divided;
mod on_lengths;
mod on_levels;
mod on_lines;
mod on_lines_f32;
mod on_pairs;
mod on_planes;
mod on_sizes;
mod parts;
pub mod saying;
mod text;
mod widths;

// Why a list was left, and the number of the line where it was.
#[derive(Drop)]
pub enum Stop {
    Differs(usize),
    Unreadable(usize),
}

// How many lines agree, which line was looked at last, and why the list was left before its end, if it was.
#[derive(Drop)]
pub struct Replayed {
    pub agree: usize,
    pub line: usize,
    pub stop: Option<Stop>,
}

fn replay_line(number: usize, text: &[u8]) -> Result<(), Stop> {
    let line = text::read(text).ok_or(Stop::Unreadable(number))?;
    if !asking::agrees(&line) {
        return Err(Stop::Differs(number));
    }
    Ok(())
}

// Every line in turn, up to the first that is not as it should be; one that begins with # says something to readers.
pub fn replay(list: &[u8]) -> Replayed {
    let mut agree = 0usize;
    let mut line = 0usize;
    for (number, text) in (1usize..).zip(list.split_inclusive(|c| *c == b'\n')) {
        line = number;
        if text.starts_with(b"#") {
            continue;
        }
        if let Err(stop) = replay_line(number, text) {
            return Replayed {
                agree,
                line,
                stop: Some(stop),
            };
        }
        // No memory holds so many lines.
        agree = agree.saturating_add(1);
    }
    Replayed {
        agree,
        line,
        stop: None,
    }
}
