// Calls on lists of 32-bit floats, by their operation.
use crate::floats::{Call, Lent};
use crate::on_banks::made;
use crate::on_lengths::back_told;
use crate::on_pairs::four;
use bank::making::two_pairs;
use exact::there_and_back;
use isferghul::{lines, taps};
use telling::borders::border_of;

fn back_by_pairs_f32(call: &Call<'_, f32>, lent: &mut Lent<'_, f32>) -> u64 {
    let [border, low, high, lowback, highback] = call.line.scalars::<5>();
    let (low, high, lowback, highback) = four(call.list(2), [low, high, lowback, highback]);
    let made = two_pairs(low, high, lowback, highback, border_of(border));
    let line = call.list(4);
    back_told(
        there_and_back(made.bank, line, lent.p, lent.q, lent.r, lent.s),
        lent.told,
    )
}

pub fn ask(call: &Call<'_, f32>, lent: &mut Lent<'_, f32>) -> Option<u64> {
    let border = call.line.scalar(1);
    let a = call.list(2);
    let b = call.list(4);
    let c = call.list(6);
    let d = call.list(8);
    Some(match call.line.scalar(0) {
        42 => { lines::isferghul_analyse(border, a, b, c, lent.p, lent.q, lent.r, lent.told) }
        43 => lines::isferghul_synthesise(a, b, c, d, lent.p, lent.told),
        44 => {
            let centre = call.line.signed(2);
            lines::isferghul_convolve(border, a, lent.p, lent.q, d, centre, lent.told)
        }
        45 => taps::isferghul_mirror(a, lent.p),
        46 => back_told(
            there_and_back(made(a, b, border), c, lent.p, lent.q, lent.r, lent.s),
            lent.told,
        ),
        47 => back_by_pairs_f32(call, lent),
        _ => return None,
    })
}
