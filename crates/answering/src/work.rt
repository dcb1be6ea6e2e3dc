// What a text asks for, its bands and their text, in buffers that are lent.
ghost use Rattle.std.specs.Prelude.{false, ◌≤◌, length};
ghost use Rattle.texts.specs.Prints.{bands_text};
ghost use Rattle.printing.specs.Printings.{Printed};
ghost use Rattle.answering.specs.Answers.{most_numbers, bank_text, Roomy, Banded, TextAnswered};

use crate::asking::ask;
use analysis::analyse;
use bank::Bank;
use printing::{PrintError, print_bands, print_refusal};

// Both bands of m numbers each.
fn answer_bands(
    bank: Bank,
    line: &[f64],
    m: usize,
    approx: &mut [f64],
    detail: &mut [f64],
    scratch: &mut [f64],
    out: &mut [u8],
) -> Result<usize, PrintError>
    requires { Banded (length line.now) bank.taps m × Roomy (length approx.old) (length detail.old) (length scratch.old) }
    ensures { Printed false (bank_text bands_text bank line.now) out.old result out.new }
{
    // done: the buffers have room
    let _ = analyse(bank, line, &mut approx[..m], &mut detail[..m], scratch);
    print_bands(&approx[..m], &detail[..m], out)
}

// Buffers as large as any text asks for.
pub fn answer_text(
    text: &[u8],
    numbers: &mut [f64],
    approx: &mut [f64],
    detail: &mut [f64],
    scratch: &mut [f64],
    out: &mut [u8],
) -> Result<usize, PrintError>
    requires { (most_numbers ≤ length numbers.old) × Roomy (length approx.old) (length detail.old) (length scratch.old) }
    ensures { TextAnswered text.now out.old result out.new }
{
    match ask(text, numbers) {
        Ok(asked) => answer_bands(
            asked.bank,
            &numbers[asked.from..asked.end],
            asked.m,
            approx,
            detail,
            scratch,
            out,
        ),
        Err(refusal) => print_refusal(refusal.number(), out),
    }
}
