// Calls of the engine that pads no line, and where two pairs of bands part, by their operation.
use crate::floats::{Call, Lent};
use isferghul::direct;
use parting::Parting;
use parting::finding::parting;
use telling::told::two;

// Told as differing bands are: the approximations as column 0, the details as column 1.
fn parting_told(answer: Parting, carried: &mut [usize; 2]) -> u64 {
    match answer {
        Parting::Same => 0,
        Parting::Approx(place) => two(27, 0, place, carried),
        Parting::Detail(place) => two(27, 1, place, carried),
    }
}

pub fn ask(call: &Call<'_, f64>, lent: &mut Lent<'_, f64>) -> Option<u64> {
    let border = call.line.scalar(1);
    let a = call.list(2);
    let b = call.list(4);
    let c = call.list(6);
    let d = call.list(8);
    Some(match call.line.scalar(0) {
        48 => direct::isferghul_analyse_directly(border, a, b, c, lent.p, lent.q, lent.told),
        49 => direct::isferghul_synthesise_directly(a, b, c, d, lent.p, lent.told),
        50 => parting_told(parting(a, b, c, d), lent.told),
        _ => return None,
    })
}
