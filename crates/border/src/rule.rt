// The border rule: how the samples of a line go on beyond it.
ghost use Rattle.std.specs.Prelude.{◌≡◌, ◌+◌, ◌-◌, ◌%◌, ◌<◌, ◌≤◌};
ghost use Rattle.numbers.specs.Words.{longest};
ghost use Rattle.border.specs.Rule.{turned};
ghost use Rattle.border.specs.Reach.{Lap, Goes, Long, laps_of};

use crate::Border;

// A signed place, by its sign.
#[derive(Clone, Copy)]
pub enum Place {
    // -(k + 1)
    Before(usize),
    At(usize),
}

// What stands beyond a line, on both sides: the nearest end, nothing, or its samples lap by lap.
#[derive(Clone, Copy)]
pub enum Way {
    Ends,
    Nothing,
    // Place q of a lap is sample q below `turn`, and sample top - q from there on.
    Laps {
        period: usize,
        turn: usize,
        top: usize,
    },
}

// The place behind q in a lap.
pub fn next(q: usize, period: usize) -> usize
    requires { q < period }
    ensures { result ≡ (q + 1) % period }
{
    let r = q + 1;
    if r == period {
        return 0;
    }
    r
}

// The place in front of q in a lap.
pub fn prior(q: usize, period: usize) -> usize
    requires { q < period }
    ensures { result ≡ (q + (period - 1)) % period }
{
    if q == 0 {
        return period - 1;
    }
    q - 1
}

// There and back: q below `turn`, top - q from there on.
pub fn turned(q: usize, turn: usize, top: usize) -> usize
    requires { q ≤ top }
    ensures { result ≡ turned turn top q }
{
    if q < turn {
        return q;
    }
    top - q
}

// Laps of `turn` places there and `back` places back; `once` is 1 where neither end is repeated. One sample repeats itself.
fn laps(n: usize, turn: usize, back: usize, once: usize) -> Way
    requires { Lap n turn back once }
    ensures { result ≡ laps_of n turn back once }
{
    if n == 1 {
        return Way::Ends;
    }
    let period = turn + back - 2 * once;
    Way::Laps {
        period,
        turn,
        top: period + once - 1,
    }
}

// How a border goes on beyond n samples. As far as Reflect101 goes it is Mirror101.
pub fn way_of(border: Border, n: usize) -> Way
    requires { (0 < n) × (n ≤ longest) }
    ensures { Goes border n result × Long result n }
{
    match border {
        Border::Clamp => Way::Ends,
        Border::Wrap => laps(n, n, 0, 0),
        Border::Reflect => laps(n, 0, n, 0),
        Border::Zeros => Way::Nothing,
        Border::Reflect101 => laps(n, n, n, 1),
        Border::Mirror => laps(n, n, n, 0),
        Border::Mirror101 => laps(n, n, n, 1),
    }
}
