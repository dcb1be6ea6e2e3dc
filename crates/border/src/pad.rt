// Padded lines, written out at the front of a lent buffer or within it. Work for entries to share: it asks for sizes.
ghost use Rattle.std.specs.Prelude.{◌≡◌, ◌+◌, ◌<◌, ◌≤◌, length, take, drop, set};
ghost use Rattle.numbers.specs.Words.{plus_zero, at, written, placed, replaced};
ghost use Rattle.border.specs.Rule.{turned, padded};
ghost use Rattle.border.specs.Reach.{Walkable, Paddable, Movable, PaddableWithin, lap_at};

use crate::Border;
use crate::rule::{Way, next, prior, turned, way_of};
use numbers::copying::copy_to;
use numbers::real::Real;

// x, over and over.
fn repeat<R: Real>(s: &mut [R], x: R, from: usize, count: usize)
    requires { from + count ≤ length s.old }
    ensures { R.floats s.new ≡ placed (λ k. R.float x) from count (R.floats s.old) }
{
    for i in 0..count {
        s[from + i] = x;
    }
}

// Of n samples that are in place from `left` on, the one that place q of their laps has goes to place `to`.
fn put<R: Real>(s: &mut [R], to: usize, left: usize, n: usize, q: usize, turn: usize, top: usize)
    requires { (to < length s.old) × (left + n ≤ length s.old) × (q ≤ top) × (turned turn top q < n) }
    ensures { R.floats s.new ≡ set (R.floats s.old) to (at (R.floats s.old) (left + turned turn top q)) }
{
    let line = &s[left..left + n];
    let x = line[turned(q, turn, top)];
    s[to] = x;
}

// The places in front of the samples, lap by lap, from the nearest out.
fn walk_front<R: Real>(s: &mut [R], left: usize, n: usize, period: usize, turn: usize, top: usize)
    requires { Walkable n (length s.old) left 0 left period turn top }
    ensures { R.floats s.new ≡ replaced (lap_at left period turn top (R.floats s.old)) 0 left (R.floats s.old) }
{
    let mut q = period - 1;
    for i in 0..left {
        put(s, left - 1 - i, left, n, q, turn, top);
        q = prior(q, period);
    }
}

// The places behind the samples, lap by lap, from the nearest out.
fn walk_behind<R: Real>(
    s: &mut [R],
    left: usize,
    n: usize,
    right: usize,
    period: usize,
    turn: usize,
    top: usize,
)
    requires { Walkable n (length s.old) left (left + n) right period turn top × (n ≤ period) }
    ensures { R.floats s.new ≡ replaced (lap_at left period turn top (R.floats s.old)) (left + n) right (R.floats s.old) }
{
    let mut q = n - 1;
    let end = left + n;
    for p in end..end + right {
        q = next(q, period);
        put(s, p, left, n, q, turn, top);
    }
}

// Both ends, around n samples that are in place from `left` on.
pub fn pad_ends<R: Real>(border: Border, s: &mut [R], left: usize, n: usize, right: usize)
    requires { Paddable border n left right × (left + n + right ≤ length s.old) }
    ensures { R.floats s.new ≡ written (padded plus_zero border (take n (drop left (R.floats s.old))) left) (left + n + right) (R.floats s.old) }
{
    if left + right == 0 {
        return;
    }
    let end = left + n;
    let way = way_of(border, n);
    match way {
        Way::Ends => {
            let first = s[left];
            repeat(s, first, 0, left);
            let last = s[end - 1];
            repeat(s, last, end, right);
        }
        Way::Nothing => {
            repeat(s, R::zero(), 0, left);
            repeat(s, R::zero(), end, right);
        }
        Way::Laps { period, turn, top } => {
            walk_front(s, left, n, period, turn, top);
            walk_behind(s, left, n, right, period, turn, top);
        }
    }
}

// n numbers of s, from `from` on, go to s from `to` on, apart from where they lie.
pub fn copy_within<R: Real>(s: &mut [R], from: usize, n: usize, to: usize)
    requires { Movable (length s.old) from n to }
    ensures { R.floats s.new ≡ placed (λ k. at (R.floats s.old) (from + k)) to n (R.floats s.old) }
{
    s.copy_within(from..from + n, to);
}

// The padded line at the front of the scratch; what lies beyond it stays.
pub fn pad<R: Real>(border: Border, line: &[R], left: usize, right: usize, scratch: &mut [R])
    requires { Paddable border (length line.now) left right × (left + length line.now + right ≤ length scratch.old) }
    ensures { R.floats scratch.new ≡ written (padded plus_zero border (R.floats line.now) left) (left + length line.now + right) (R.floats scratch.old) }
{
    copy_to(line, scratch, left);
    pad_ends(border, scratch, left, line.len(), right);
}

// The same where the line, n numbers from `from` on, lies in the buffer that takes the padded line, from `to` on.
pub fn pad_within<R: Real>(
    border: Border,
    s: &mut [R],
    from: usize,
    n: usize,
    to: usize,
    left: usize,
    right: usize,
)
    requires { PaddableWithin border (length s.old) from n to left right }
    ensures { R.floats s.new ≡ placed (padded plus_zero border (take n (drop from (R.floats s.old))) left) to (left + n + right) (R.floats s.old) }
{
    copy_within(s, from, n, to + left);
    let end = to + (left + n + right);
    pad_ends(border, &mut s[to..end], left, n, right);
}
