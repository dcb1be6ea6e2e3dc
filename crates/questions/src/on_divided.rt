// Restoring with each joined line divided by s, a float that is told by its bits: for C, handed out, by a bank of two pairs, there and back over levels, and the tests alone.
ghost use Rattle.exact_levels.specs.Backs as Backs;
ghost use Rattle.telling.specs.Told.{Told};

use crate::floats::{Call, Lent};
use crate::on_banks::{handed, made};
use crate::on_pairs::paired;
use crate::parts::Line;
use crate::widths::Width;
use bank::Bank;
use exact_levels::{LevelsBackError, levels_back_answer, there_and_back_levels};
use isferghul::packing;
use level_telling::told;
use restoring::divided;
use restoring::divided::divided_answer;

fn back_told(answer: Result<(), LevelsBackError>, carried: &mut [usize; 2]) -> u64
    ensures { Told (Backs.number_of answer) (Backs.values_of answer) carried.old result carried.new }
{
    match answer {
        Ok(()) => 0,
        Err(LevelsBackError::Analysis(refusal)) => told::levels(Err(refusal), carried),
        Err(LevelsBackError::Restoring(refusal)) => told::divided(Err(refusal), carried),
    }
}

// The divisor, which every call is told third.
fn divisor(line: &Line) -> f64 {
    f64::float(line.word(3))
}

// The restored line, and the number that stands beside it.
fn divided_line(
    call: &Call<'_, f64>,
    bank: Bank,
    packed: &[f64],
    lent: &mut Lent<'_, f64>,
) -> Option<u64> {
    let [n, levels] = call.line.scalars::<2>();
    let s = divisor(call.line);
    let answer = divided_answer(
        n,
        bank.taps,
        s,
        levels,
        packed.len(),
        lent.p.len(),
        lent.q.len(),
    );
    let restored = divided::divided_line(bank, s, packed, n, levels, lent.p, lent.q);
    handed(restored, lent.r)?;
    Some(told::divided(answer, lent.told))
}

fn divided_by_pairs(call: &Call<'_, f64>, lent: &mut Lent<'_, f64>) -> Option<u64> {
    let [_, _, _, low, high, lowback, highback] = call.line.scalars::<7>();
    let bank = paired(call.list(2), [low, high, lowback, highback], 0);
    divided_line(call, bank, call.list(4), lent)
}

pub fn ask(call: &Call<'_, f64>, lent: &mut Lent<'_, f64>) -> Option<u64> {
    let [first, second, _, fourth, fifth, sixth, seventh, eighth] = call.line.scalars::<8>();
    let s = divisor(call.line);
    let a = call.list(2);
    let b = call.list(4);
    let c = call.list(6);
    Some(match call.line.scalar(0) {
        52 => packing::isferghul_restore_divided(
            a, b, s, c, first, second, lent.p, lent.q, lent.told,
        ),
        53 => told::divided(
            divided_answer(first, second, s, fourth, fifth, sixth, seventh),
            lent.told,
        ),
        54 => divided_line(call, made(a, b, 0), c, lent)?,
        55 => divided_by_pairs(call, lent)?,
        56 => back_told(
            levels_back_answer(first, second, s, fourth, fifth, sixth, seventh, eighth),
            lent.told,
        ),
        57 => back_told(
            there_and_back_levels(
                made(a, b, first),
                s,
                c,
                second,
                lent.p,
                lent.q,
                lent.r,
                lent.s,
            ),
            lent.told,
        ),
        _ => return None,
    })
}
