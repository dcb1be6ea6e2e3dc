// Entries that are not for C: they take a bank by value or hand out a part. What is handed out goes to a list that has to be as long.
use crate::floats::{Call, Lent};
use crate::on_lengths::{back_told, handing_told};
use bank::Bank;
use bank::making::bank;
use exact::there_and_back;
use level_telling::told;
use numbers::real::Real;
use restoring::restoring_answer;
use telling::borders::border_of;

pub fn made<R: Real>(low: &[R], high: &[R], border: usize) -> Bank<R> {
    let made = bank(low, high, border_of(border));
    made.bank
}

// A part goes to a list of its own length.
pub fn handed(part: &[f64], list: &mut [f64]) -> Option<()> {
    if part.len() != list.len() {
        return None;
    }
    list.copy_from_slice(part);
    Some(())
}

// The part of the packed buffer, and the number that stands beside it.
fn level_details(call: &Call<'_, f64>, lent: &mut Lent<'_, f64>) -> Option<u64> {
    let [n, f, levels, level] = call.line.scalars::<4>();
    let packed = call.list(2);
    handed(
        level_parts::level_details(packed, n, f, levels, level),
        lent.p,
    )?;
    let answer = level_parts::handing_answer(n, f, levels, packed.len(), level);
    Some(handing_told(answer, lent.told))
}

// The restored line, and the number that stands beside it.
pub fn restored_line(
    call: &Call<'_, f64>,
    bank: Bank,
    packed: &[f64],
    lent: &mut Lent<'_, f64>,
) -> Option<u64> {
    let [n, levels] = call.line.scalars::<2>();
    let answer = restoring_answer(
        n,
        bank.taps,
        levels,
        packed.len(),
        lent.p.len(),
        lent.q.len(),
    );
    let restored = restoring::restored_line(bank, packed, n, levels, lent.p, lent.q);
    handed(restored, lent.r)?;
    Some(told::levels(answer, lent.told))
}

pub fn ask(call: &Call<'_, f64>, lent: &mut Lent<'_, f64>) -> Option<u64> {
    let a = call.list(2);
    let b = call.list(4);
    let c = call.list(6);
    Some(match call.line.scalar(0) {
        36 => {
            let bank = made(a, b, call.line.scalar(1));
            back_told(
                there_and_back(bank, c, lent.p, lent.q, lent.r, lent.s),
                lent.told,
            )
        }
        37 => level_details(call, lent)?,
        38 => restored_line(call, made(a, b, 0), c, lent)?,
        _ => return None,
    })
}
