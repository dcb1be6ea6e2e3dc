// A line's text: parts with a bar between them. A part is words with a space between them; a word is up to 16 upper-case hex digits, or ? for a place left open, and * with a count behind it repeats it.
ghost use Rattle.std.specs.Prelude.{◌≡◌, ◌+◌, ◌≤◌, ◌<◌, length, IfSome};

use crate::parts::Line;

// The word that stands for a place left open. It is a number and not an Option, since 16 digits F leave a place open too.
const OPEN: u64 = u64::MAX;

// Whether a place is left open: only what a call leaves may be.
pub fn open(word: u64, left: bool) -> bool {
    left && word == OPEN
}

// What a digit is worth.
fn digit(c: u8) -> Option<u64> {
    match c {
        b'0'..=b'9' => Some(u64::from(c - b'0')),
        b'A'..=b'F' => Some(u64::from(c - b'A' + 10)),
        _ => None,
    }
}

// Of more than 16 digits the last 16 count.
fn number(digits: &[u8]) -> u64 {
    digits
        .iter()
        .filter_map(|c| digit(*c))
        .fold(0, |number, digit| number << 4 | digit)
}

// The digits at the front of a text, which may be none, and what is behind them.
fn digits(text: &[u8]) -> (&[u8], &[u8])
    ensures { length result.0.now + length result.1.now ≡ length text.now }
{
    let end = text.iter().position(|c| digit(*c).is_none());
    text.split_at(end.unwrap_or(text.len()))
}

// The word at the front of a text, and what is behind it.
fn word(text: &[u8]) -> Option<(u64, &[u8])>
    ensures { IfSome result (λ read. length read.1.now < length text.now) }
{
    if let Some(rest) = text.strip_prefix(b"?") {
        return Some((OPEN, rest));
    }
    let (digits, rest) = digits(text);
    if digits.is_empty() || 16 < digits.len() {
        return None;
    }
    Some((number(digits), rest))
}

// How often the word in front of a text stands, and what is behind its count.
fn times(text: &[u8]) -> Option<(u64, &[u8])>
    ensures { IfSome result (λ read. length read.1.now ≤ length text.now) }
{
    let Some(count) = text.strip_prefix(b"*") else {
        return Some((1, text));
    };
    let (digits, rest) = digits(count);
    let times = number(digits);
    if times == 0 {
        return None;
    }
    Some((times, rest))
}

// The word at the front of a text goes to the line, as often as it stands; the answer is what is behind it.
fn put<'a>(text: &'a [u8], line: &mut Line) -> Option<&'a [u8]>
    ensures { IfSome result (λ rest. length rest.now < length text.now) }
{
    let (word, counted) = word(text)?;
    let (times, spaced) = times(counted)?;
    line.push(word, times as usize)?;
    Some(spaced.strip_prefix(b" ").unwrap_or(spaced))
}

// The line of a text that ends with the first newline.
pub fn read(text: &[u8]) -> Option<Line> {
    let mut line = Line::new();
    let mut part = line.begin()?;
    let mut rest = text;
    while let Some((c, behind)) = rest.split_first() {
        match *c {
            b'\n' => {
                line.end(part)?;
                return Some(line);
            }
            b'|' => {
                line.end(part)?;
                part = line.begin()?;
                rest = behind;
            }
            _ => rest = put(rest, &mut line)?,
        }
    }
    None
}
