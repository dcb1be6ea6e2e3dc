// What a text asks for, its bands by either engine, and where they part, in buffers that are lent.
ghost use Rattle.std.specs.Prelude.{◌≡◌, false, ◌≤◌, length};
ghost use Rattle.analysis.specs.Works.{Analysing};
ghost use Rattle.printing.specs.Printings.{Printed};
ghost use Rattle.answering.specs.Answers.{most_numbers, bank_text, Roomy, Banded};
ghost use Rattle.agreeing.specs.Agreements.{agreed_text, bank_parting, TextAgreed};

use crate::saying::print_parting;
use answering::asking::ask;
use bank::Bank;
use parting::Parting;
use parting::finding::parting;
use printing::{PrintError, print_refusal};

// The bands of both engines, each in buffers as long as they are.
fn compare(
    bank: Bank,
    line: &[f64],
    approx: &mut [f64],
    detail: &mut [f64],
    scratch: &mut [f64],
    approx2: &mut [f64],
    detail2: &mut [f64],
) -> Parting
    requires { Analysing bank.taps (length line.now) (length approx.old) (length detail.old) (length scratch.old) × (length approx2.old ≡ length approx.old) × (length detail2.old ≡ length detail.old) }
    ensures { result ≡ bank_parting bank line.now }
{
    // both done: the buffers are as long as asked
    let _ = analysis::analyse(bank, line, approx, detail, scratch);
    let _ = direct_analysis::analyse(bank, line, approx2, detail2);
    parting(approx, detail, approx2, detail2)
}

// Bands of m numbers each, and the text of where they part.
fn agree_bands(
    bank: Bank,
    line: &[f64],
    m: usize,
    approx: &mut [f64],
    detail: &mut [f64],
    scratch: &mut [f64],
    approx2: &mut [f64],
    detail2: &mut [f64],
    out: &mut [u8],
) -> Result<usize, PrintError>
    requires { Banded (length line.now) bank.taps m × Roomy (length approx.old) (length detail.old) (length scratch.old) × Roomy (length approx2.old) (length detail2.old) (length scratch.old) }
    ensures { Printed false (bank_text agreed_text bank line.now) out.old result out.new }
{
    let parted = compare(
        bank,
        line,
        &mut approx[..m],
        &mut detail[..m],
        scratch,
        &mut approx2[..m],
        &mut detail2[..m],
    );
    print_parting(parted, out)
}

// Buffers as large as any text asks for.
pub fn agree_text(
    text: &[u8],
    numbers: &mut [f64],
    approx: &mut [f64],
    detail: &mut [f64],
    scratch: &mut [f64],
    approx2: &mut [f64],
    detail2: &mut [f64],
    out: &mut [u8],
) -> Result<usize, PrintError>
    requires { (most_numbers ≤ length numbers.old) × Roomy (length approx.old) (length detail.old) (length scratch.old) × Roomy (length approx2.old) (length detail2.old) (length scratch.old) }
    ensures { TextAgreed text.now out.old result out.new }
{
    match ask(text, numbers) {
        Ok(asked) => agree_bands(
            asked.bank,
            &numbers[asked.from..asked.end],
            asked.m,
            approx,
            detail,
            scratch,
            approx2,
            detail2,
            out,
        ),
        Err(refusal) => print_refusal(refusal.number(), out),
    }
}
