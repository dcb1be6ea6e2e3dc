// Calls that lend lists of planes, by their operation.
use crate::floats::{Call, Lent};
use isferghul::planar;

pub fn ask(call: &Call<'_, f64>, lent: &mut Lent<'_, f64>) -> Option<u64> {
    let [first, second, third] = call.line.scalars::<3>();
    let a = call.list(2);
    let b = call.list(4);
    let c = call.list(6);
    let d = call.list(8);
    let e = call.list(10);
    let f = call.list(12);
    Some(match call.line.scalar(0) {
        21 => planar::isferghul_analyse_plane(
            first, a, b, c, second, third, lent.p, lent.q, lent.r, lent.s, lent.t, lent.told,
        ),
        22 => planar::isferghul_synthesise_plane(
            a, b, c, d, e, f, first, second, lent.p, lent.q, lent.told,
        ),
        23 => planar::isferghul_compare_bands(a, b, first, second, lent.told),
        _ => return None,
    })
}
