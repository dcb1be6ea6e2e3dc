// Every second place of a line: taken into sums, and put back.
ghost use Rattle.std.specs.Prelude.{◌≡◌, ◌+◌, ◌*◌, ◌≤◌, length};
ghost use Rattle.numbers.specs.Words.{at, tab};
ghost use Rattle.gathering.specs.Works.{Seconds};

use numbers::real::Real;

// Every second number of the line, from `from` on.
pub fn take_seconds<R: Real>(sums: &mut [R], line: &[R], from: usize)
    requires { from + 2 * length sums.old ≤ length line.now + 1 }
    ensures { R.floats sums.new ≡ tab (λ q. at (R.floats line.now) (from + 2 * q)) (length sums.old) }
{
    for q in 0..sums.len() {
        sums[q] = line[from + 2 * q];
    }
}

// The sums to every second place.
pub fn put_seconds<R: Real>(sums: &[R], line: &mut [R], from: usize)
    requires { from + 2 * length sums.now ≤ length line.old + 1 }
    ensures { Seconds from (R.floats sums.now) (R.floats line.old) (R.floats line.new) (length sums.now) }
{
    for q in 0..sums.len() {
        line[from + 2 * q] = sums[q];
    }
}
