// Calls that lend lists of several levels, by their operation.
use crate::floats::{Call, Lent};
use isferghul::{packing, places};

// One place is read to a list of one number.
fn read_place(call: &Call<'_, f64>, lent: &mut Lent<'_, f64>) -> Option<u64> {
    let [n, f, levels, level, place] = call.line.scalars::<5>();
    let [value] = &mut *lent.p else {
        return None;
    };
    let mut held = [*value];
    let packed = call.list(2);
    let number = places::isferghul_read_place(
        packed, n, f, levels, level, place, &mut held, lent.told,
    );
    *value = held[0];
    Some(number)
}

pub fn ask(call: &Call<'_, f64>, lent: &mut Lent<'_, f64>) -> Option<u64> {
    let [first, second] = call.line.scalars::<2>();
    let a = call.list(2);
    let b = call.list(4);
    let c = call.list(6);
    Some(match call.line.scalar(0) {
        14 => packing::isferghul_analyse_levels(first, a, b, c, second, lent.p, lent.q, lent.told),
        15 => packing::isferghul_restore_levels(a, b, c, first, second, lent.p, lent.q, lent.told),
        16 => read_place(call, lent)?,
        _ => return None,
    })
}
