// Where the reading of a line of numbers stands, and what one byte more makes of it.
#![tactic(auto)]

ghost use Rattle.std.specs.Prelude.{◌≡◌};
ghost use Rattle.phases.specs.Phases.{least, firstly, starting, freshly, grown, behind, stepped, closed_at, value_of};

#[derive(Clone, Copy)]
pub enum Phase {
    Fresh,
    Next,
    Minus,
    Number { negative: bool, size: u32 },
    Closed,
    Broken,
}

// The least first digit: no minus stands before a 0.
fn least(negative: bool) -> u8
    ensures { result ≡ least negative }
{
    if negative { b'1' } else { b'0' }
}

fn first(negative: bool, c: u8) -> Phase
    ensures { result ≡ firstly negative c }
{
    if c < least(negative) || b'9' < c {
        return Phase::Broken;
    }
    Phase::Number {
        negative,
        size: c as u32 - 48,
    }
}

fn start(c: u8) -> Phase
    ensures { result ≡ starting c }
{
    match c {
        b'-' => Phase::Minus,
        _ => first(false, c),
    }
}

fn fresh(c: u8) -> Phase
    ensures { result ≡ freshly c }
{
    match c {
        b'\n' => Phase::Closed,
        _ => start(c),
    }
}

// The largest size of a number.
const MOST: u32 = 1000000;

// A digit more: none behind a 0 in front, and none that makes more than 1,000,000.
fn grow(negative: bool, size: u32, c: u8) -> Phase
    ensures { result ≡ grown negative size c }
{
    if !c.is_ascii_digit() || size == 0 || MOST < size {
        return Phase::Broken;
    }
    let more = size * 10 + (c as u32 - 48);
    if MOST < more {
        return Phase::Broken;
    }
    Phase::Number {
        negative,
        size: more,
    }
}

fn further(negative: bool, size: u32, c: u8) -> Phase
    ensures { result ≡ behind negative size c }
{
    match c {
        b' ' => Phase::Next,
        b'\n' => Phase::Closed,
        _ => grow(negative, size, c),
    }
}

pub fn step(phase: Phase, c: u8) -> Phase
    ensures { result ≡ stepped phase c }
{
    match phase {
        Phase::Fresh => fresh(c),
        Phase::Next => start(c),
        Phase::Minus => first(true, c),
        Phase::Number { negative, size } => further(negative, size, c),
        Phase::Closed | Phase::Broken => Phase::Broken,
    }
}

pub fn closed(phase: Phase) -> bool
    ensures { result ≡ closed_at phase }
{
    matches!(phase, Phase::Closed)
}

pub fn value(negative: bool, size: u32) -> f64
    ensures { result ≡ value_of negative size }
{
    let x = size as f64;
    if negative { -x } else { x }
}
