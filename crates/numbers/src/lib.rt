// Numbers that every crate works with, and copies of lists; specs/ has the words and laws that they cite.
#![tactic(auto)]

pub mod copying;
pub mod narrow;
pub mod real;
pub mod wide;

ghost use Rattle.std.specs.Prelude.{◌≡◌, ◌-◌, min, max};

// The most samples of a line and the most numbers of a band that is given.
pub const LONGEST: usize = 1048576;

// The most numbers of a plane, whose sides are lines.
pub const LARGEST: usize = 16777216;

// a - b, or 0 where b is more.
pub fn less(a: usize, b: usize) -> usize
    ensures { result ≡ a - b }
{
    a.saturating_sub(b)
}

pub fn least(a: usize, b: usize) -> usize
    ensures { result ≡ min a b }
{
    a.min(b)
}

pub fn most(a: usize, b: usize) -> usize
    ensures { result ≡ max a b }
{
    a.max(b)
}
