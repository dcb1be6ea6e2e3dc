// Lists copied to a place of a lent buffer. Work for entries to share: it asks for sizes.
ghost use Rattle.std.specs.Prelude.{◌≡◌, ◌+◌, ◌≤◌, length};
ghost use Rattle.numbers.specs.Words.{at, placed};

use crate::real::Real;

// Eight numbers of the line, from `i` on, go to s from `t` on. All are read before one is written, so that the compiler may move several at once.
fn copy_eight<R: Real>(line: &[R], s: &mut [R], i: usize, t: usize)
    requires { (i + 8 ≤ length line.now) × (t + 8 ≤ length s.old) }
    ensures { R.floats s.new ≡ placed (λ k. at (R.floats line.now) (i + k)) t 8 (R.floats s.old) }
{
    let a = line[i];
    let b = line[i + 1];
    let c = line[i + 2];
    let d = line[i + 3];
    let e = line[i + 4];
    let f = line[i + 5];
    let g = line[i + 6];
    let h = line[i + 7];
    s[t] = a;
    s[t + 1] = b;
    s[t + 2] = c;
    s[t + 3] = d;
    s[t + 4] = e;
    s[t + 5] = f;
    s[t + 6] = g;
    s[t + 7] = h;
}

// The eights of the line go to s, from `to` on; the answer is how many numbers they are.
fn copy_eights<R: Real>(line: &[R], s: &mut [R], to: usize) -> usize
    requires { to + length line.now ≤ length s.old }
    ensures { (result ≤ length line.now) × (R.floats s.new ≡ placed (at (R.floats line.now)) to result (R.floats s.old)) }
{
    let turns = line.len() / 8;
    for t in 0..turns {
        copy_eight(line, s, 8 * t, to + 8 * t);
    }
    8 * turns
}

// The line goes to s, from `to` on. By eights: the library's copy is a call of memmove, which the archive for C does without.
pub fn copy_to<R: Real>(line: &[R], s: &mut [R], to: usize)
    requires { to + length line.now ≤ length s.old }
    ensures { R.floats s.new ≡ placed (at (R.floats line.now)) to (length line.now) (R.floats s.old) }
{
    let n = copy_eights(line, s, to);
    for i in n..line.len() {
        s[to + i] = line[i];
    }
}
