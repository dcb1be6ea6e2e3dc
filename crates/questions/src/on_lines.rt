// Calls that lend lists of one line, by their operation.
use crate::floats::{Call, Lent};
use isferghul::{lines, taps};

pub fn ask(call: &Call<'_, f64>, lent: &mut Lent<'_, f64>) -> Option<u64> {
    let border = call.line.scalar(1);
    let a = call.list(2);
    let b = call.list(4);
    let c = call.list(6);
    let d = call.list(8);
    Some(match call.line.scalar(0) {
        1 => lines::isferghul_analyse(border, a, b, c, lent.p, lent.q, lent.r, lent.told),
        2 => lines::isferghul_synthesise(a, b, c, d, lent.p, lent.told),
        3 => {
            let centre = call.line.signed(2);
            lines::isferghul_convolve(border, a, lent.p, lent.q, d, centre, lent.told)
        }
        8 => taps::isferghul_mirror(a, lent.p),
        _ => return None,
    })
}
