// One join after another, from the deepest level up, for entries to share: sizes have been tested.
ghost use Rattle.std.specs.Prelude.{◌≡◌, length};
ghost use Rattle.std.specs.Float.{binary64};
ghost use Rattle.numbers.specs.Words.{headed};
ghost use Rattle.bank.specs.Lengths.{Lent};
ghost use Rattle.dividing.specs.Divisions.{finished};
ghost use Rattle.restoring.specs.Lines.{level_join, first_after, second_after, first_by, second_by};
ghost use Rattle.restoring.specs.Works.{line_held, turn_first_by, turn_second_by, Joining, Turning, Restoring, Fronted, Front};

use bank::lengths::idwt_length;
use dividing::{Finish, finish_line};
use packed::depth::{part_of, restoring_need};
use synthesis::work::join_cleared;

// One join at the front of a buffer: the line trimmed to as many as the details, the output cleared; then what is done to it.
fn join_front<'a>(
    low: &'a [f64],
    high: &'a [f64],
    f: usize,
    how: Finish,
    line: &[f64],
    detail: &[f64],
    out: &mut [f64],
)
    requires { Lent f (length low.now) (length high.now) × Joining f (length line.now) (length detail.now) (length out.old) }
    ensures { out.new ≡ headed (finished binary64 how (level_join binary64 f low.now high.now line.now detail.now)) out.old }
{
    let m = detail.len();
    let n = idwt_length(m, f);
    join_cleared(low, high, f, &line[..m], detail, &mut out[..n]);
    finish_line(&mut out[..n], how);
}

// Join j, the deepest being 0: the last approximations into the first buffer, then the front of either buffer into the other.
fn join_level<'a>(
    low: &'a [f64],
    high: &'a [f64],
    f: usize,
    how: Finish,
    deepest: &[f64],
    detail: &[f64],
    j: usize,
    first: &mut [f64],
    second: &mut [f64],
)
    requires { Lent f (length low.now) (length high.now) × Turning f (length deepest.now) (length detail.now) j (length first.old) (length second.old) }
    ensures { (first.new ≡ turn_first_by (finished binary64 how) binary64 f low.now high.now (line_held deepest.now first.old second.old j) detail.now j first.old)
        × (second.new ≡ turn_second_by (finished binary64 how) binary64 f low.now high.now (line_held deepest.now first.old second.old j) detail.now j second.old) }
{
    if j == 0 {
        join_front(low, high, f, how, deepest, detail, first);
    } else if j % 2 == 0 {
        join_front(low, high, f, how, second, detail, first);
    } else {
        join_front(low, high, f, how, first, detail, second);
    }
}

// Every level, from the deepest up, with what `how` names done to each joined line.
pub fn restore_by<'a>(
    low: &'a [f64],
    high: &'a [f64],
    f: usize,
    how: Finish,
    packed: &[f64],
    n: usize,
    levels: usize,
    first: &mut [f64],
    second: &mut [f64],
)
    requires { Lent f (length low.now) (length high.now) × Restoring n f levels (length packed.now) (length first.old) (length second.old) }
    ensures { (first.new ≡ first_by (finished binary64 how) binary64 f low.now high.now packed.now n levels levels first.old)
        × (second.new ≡ second_by (finished binary64 how) binary64 f low.now high.now packed.now n levels levels second.old) }
{
    let last = part_of(n, f, levels, 0);
    let start = last.start;
    let end = start + last.count;
    for j in 0..levels {
        let part = part_of(n, f, levels, levels - j);
        let from = part.start;
        let to = from + part.count;
        join_level(
            low,
            high,
            f,
            how,
            &packed[start..end],
            &packed[from..to],
            j,
            first,
            second,
        );
    }
}

// The same, with nothing done to a joined line.
pub fn restore<'a>(
    low: &'a [f64],
    high: &'a [f64],
    f: usize,
    packed: &[f64],
    n: usize,
    levels: usize,
    first: &mut [f64],
    second: &mut [f64],
)
    requires { Lent f (length low.now) (length high.now) × Restoring n f levels (length packed.now) (length first.old) (length second.old) }
    ensures { (first.new ≡ first_after binary64 f low.now high.now packed.now n levels levels first.old)
        × (second.new ≡ second_after binary64 f low.now high.now packed.now n levels levels second.old) }
{
    restore_by(low, high, f, Finish::Kept, packed, n, levels, first, second);
}

// The front of the buffer that holds the line: of the second after an even number of joins, of the first after an odd one.
pub fn front<'a>(
    n: usize,
    f: usize,
    levels: usize,
    first: &'a mut [f64],
    second: &'a mut [f64],
) -> &'a mut [f64]
    requires { Fronted n f (length first.old) (length second.old) }
    ensures { Front n f levels first.entry second.entry result }
{
    let length = restoring_need(n, f);
    if levels.max(1) % 2 == 0 {
        &mut second[..length]
    } else {
        &mut first[..length]
    }
}
