// One line: its call, and whether all that it answers and leaves is as the line says.
ghost use Rattle.std.specs.Prelude.{◌≤◌};

use crate::answers::{BLANK, told};
use crate::floats::{Call, Lent, floats, given_mut, kept, same};
use crate::parts::{Line, ROOM};
use crate::widths::Width;
use crate::{on_banks, on_direct, on_divided, on_levels, on_lines, on_pairs, on_planes, on_sizes};

// The part of the first list that the call is lent; the next lists are lent too, or only read where it writes fewer.
fn first_lent(op: usize) -> usize
    ensures { result ≤ 14 }
{
    match op {
        3 | 8 | 16 | 37 | 44 | 45 => 4,
        23 | 39 | 40 | 47 | 55 => 6,
        2 | 43 | 49 | 50 => 10,
        41 => 12,
        22 => 14,
        _ => 8,
    }
}

// A call on 64-bit floats, of the one file that knows its operation. The arms there have the numbers, since judge/lists.py reads them.
pub fn ask(call: &Call<'_, f64>, lent: &mut Lent<'_, f64>) -> Option<u64> {
    on_lines::ask(call, lent)
        .or_else(|| on_levels::ask(call, lent))
        .or_else(|| on_planes::ask(call, lent))
        .or_else(|| on_banks::ask(call, lent))
        .or_else(|| on_pairs::ask(call, lent))
        .or_else(|| on_direct::ask(call, lent))
        .or_else(|| on_divided::ask(call, lent))
        .or_else(|| on_sizes::ask(call.line, lent.told))
}

// Whether the call of a line on floats of a width answers and leaves what the line says.
fn agrees_by<F: Width>(line: &Line, all: [F; ROOM]) -> bool {
    let first = first_lent(line.scalar(0));
    let mut p = all;
    let mut q = all;
    let mut r = all;
    let mut s = all;
    let mut t = all;
    let mut carried = [BLANK; 2];
    let number = F::ask(
        &Call { line, all: &all },
        &mut Lent {
            p: given_mut(line, first, &mut p),
            q: given_mut(line, first + 2, &mut q),
            r: given_mut(line, first + 4, &mut r),
            s: given_mut(line, first + 6, &mut s),
            t: given_mut(line, first + 8, &mut t),
            told: &mut carried,
        },
    );
    told(line, number, &carried)
        && kept(line, first, &all)
        && same(line, first, &p)
        && same(line, first + 2, &q)
        && same(line, first + 4, &r)
        && same(line, first + 6, &s)
        && (F::LENT < 5 || same(line, first + 8, &t))
}

pub fn agrees(line: &Line) -> bool {
    match line.scalar(0) {
        42..=47 => agrees_by::<f32>(line, floats(line)),
        _ => agrees_by::<f64>(line, floats(line)),
    }
}
