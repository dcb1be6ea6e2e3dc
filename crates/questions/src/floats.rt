// A line's words as floats: a call reads parts of one array of them, and each list that it is lent is a part of an array of its own.
ghost use Rattle.std.specs.Prelude.{◌≤◌, length};

use crate::parts::{Line, ROOM};
use crate::text::open;
use crate::widths::Width;

// What a call is told: its line, and the line's words as floats.
#[derive(Drop)]
pub struct Call<'a, F> {
    pub line: &'a Line,
    pub all: &'a [F],
    ghost whole: { 8192 ≤ length all.now },
}

impl<'a, F> Call<'a, F> {
    // The list that the k-th part tells.
    pub fn list(&self, k: usize) -> &'a [F] {
        let all = self.all;
        given(self.line, k, all)
    }
}

// The lists that a call is lent, and the words for what its answer carries.
#[derive(Drop)]
pub struct Lent<'a, F> {
    pub p: &'a mut [F],
    pub q: &'a mut [F],
    pub r: &'a mut [F],
    pub s: &'a mut [F],
    pub t: &'a mut [F],
    pub told: &'a mut [usize; 2],
}

// Each word as a float, and zeros behind them.
pub fn floats<F: Width>(line: &Line) -> [F; ROOM] {
    let mut all = [F::ZERO; ROOM];
    for (x, word) in all.iter_mut().zip(line.words()) {
        *x = F::float(*word);
    }
    all
}

// The list that the k-th part tells.
pub fn given<'a, F>(line: &Line, k: usize, all: &'a [F]) -> &'a [F]
    requires { ROOM ≤ length all.now }
{
    let places = line.places(k);
    &all[places.start..places.end]
}

// The same, to write to.
pub fn given_mut<'a, F>(line: &Line, k: usize, all: &'a mut [F]) -> &'a mut [F]
    requires { ROOM ≤ length all.old }
{
    let places = line.places(k);
    &mut all[places.start..places.end]
}

// Whether a list is as a part says, which tells what a call left or what it was given.
fn as_told<F: Width>(part: &[u64], left: bool, list: &[F]) -> bool {
    part.len() == list.len()
        && list
            .iter()
            .zip(part)
            .all(|(x, word)| open(*word, left) || x.alike(*word))
}

// Whether the list that the k-th part told is then as the next part says, or as it was where that says nothing.
pub fn same<F: Width>(line: &Line, k: usize, all: &[F; ROOM]) -> bool
    requires { k ≤ 22 }
{
    let list = given(line, k, all);
    let after = line.part(k + 1);
    if after.is_empty() {
        as_told(line.part(k), false, list)
    } else {
        as_told(after, true, list)
    }
}

// Whether each list is of words that are floats, and none in front of the k-th part is said to change: a call only reads those.
pub fn kept<F: Width>(line: &Line, k: usize, all: &[F; ROOM]) -> bool {
    for list in 1usize..9 {
        let i = 2 * list;
        if !as_told(line.part(i), false, given(line, i, all)) {
            return false;
        }
        if i < k && !line.part(i + 1).is_empty() {
            return false;
        }
    }
    true
}
