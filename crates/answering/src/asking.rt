// What a text asks for: a bank and a line of samples, or why it is refused.
ghost use Rattle.std.specs.Prelude.{◌≡◌, ◌+◌, ◌-◌, ◌≤◌, length, take, IfOk};
ghost use Rattle.answering.specs.Answers.{most_numbers};
ghost use Rattle.answering.specs.Asks.{refusal_number, unparsed, size_refusal, line_in, ListsAsked, TextAsked};

use bank::Bank;
use bank::making::{Making, bank};
use bank::sizes::{SizeError, band_length};
use border::Border;
use parsing::{ParseError, Request, parse};

// The bands of the numbers from `from` to `end`, m in each.
#[derive(Clone, Copy)]
pub struct Asked {
    pub bank: Bank,
    pub from: usize,
    pub end: usize,
    pub m: usize,
}

// Why a text has no bands.
#[derive(Clone, Copy, Debug, PartialEq, Eq)]
pub enum Refusal {
    Unreadable,
    Taps,
    MinFilterSize,
    ZeroedBaseSize,
    Limit,
    InputSize,
}

impl Refusal {
    // The number that is printed (RULES, Numbers).
    pub fn number(self) -> u64
        ensures { result ≡ refusal_number self }
    {
        match self {
            Refusal::Unreadable => 14,
            Refusal::Taps => 12,
            Refusal::MinFilterSize => 1,
            Refusal::ZeroedBaseSize => 7,
            Refusal::Limit => 11,
            Refusal::InputSize => 10,
        }
    }
}

impl From<ParseError> for Refusal {
    ghost from_gives = { λ e r. r ≡ unparsed e };

    fn from(e: ParseError) -> Refusal {
        match e {
            ParseError::InputSize { .. } => Refusal::InputSize,
            ParseError::Unreadable => Refusal::Unreadable,
        }
    }
}

impl From<SizeError> for Refusal {
    ghost from_gives = { λ e r. r ≡ size_refusal e };

    fn from(e: SizeError) -> Refusal {
        match e {
            SizeError::MinFilterSize { .. } => Refusal::MinFilterSize,
            SizeError::ZeroedBaseSize => Refusal::ZeroedBaseSize,
            SizeError::Limit => Refusal::Limit,
            SizeError::Taps => Refusal::Taps,
        }
    }
}

// Two tap lists, and a line whose length is all that is asked of it.
fn ask_lists(
    border: Border,
    low: &[f64],
    high: &[f64],
    from: usize,
    end: usize,
) -> Result<Asked, Refusal>
    requires { from ≤ end }
    ensures { IfOk result (λ a. (a.from ≡ from) × (a.end ≡ end)) × ListsAsked border low.now high.now (end - from) result }
{
    let made = bank(low, high, border);
    let Making::Done = made.answer else {
        return Err(Refusal::Taps);
    };
    let m = band_length(end - from, low.len())?;
    Ok(Asked {
        bank: made.bank,
        from,
        end,
        m,
    })
}

// The lists where parsing put them, one behind another.
fn ask_request(request: Request, numbers: &[f64]) -> Result<Asked, Refusal>
    requires { request.low + request.high + request.samples ≤ length numbers.now }
    ensures { IfOk result (λ a. (a.from ≡ request.low + request.high) × (a.end ≡ request.low + request.high + request.samples))
        × ListsAsked request.border (take request.low numbers.now) (line_in request.low (request.low + request.high) numbers.now) (request.low + request.high + request.samples - (request.low + request.high)) result }
{
    let from = request.low + request.high;
    let end = from + request.samples;
    ask_lists(
        request.border,
        &numbers[..request.low],
        &numbers[request.low..from],
        from,
        end,
    )
}

// Into a buffer that has room for any text's numbers, so that parsing asks for no more.
pub fn ask(text: &[u8], numbers: &mut [f64]) -> Result<Asked, Refusal>
    requires { most_numbers ≤ length numbers.old }
    ensures { TextAsked text.now numbers.new result }
{
    let request = parse(text, numbers)?;
    ask_request(request, numbers)
}
