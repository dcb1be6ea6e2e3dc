// The first place where two lists part, and the bands by it.
ghost use Rattle.std.specs.Prelude.{◌≡◌};
ghost use Rattle.parting.specs.Partings.{part_at, Parted};

use crate::Parting;
use comparing::work::differ;

// How many places from the front on are the same in both lists.
#[tactic(auto, using(crate::specs::Firsts::both_have, crate::specs::Firsts::part_end))]
fn part_at(x: &[f64], y: &[f64]) -> usize
    ensures { result ≡ part_at x.now y.now }
{
    let n = x.len().min(y.len());
    for i in 0..n {
        if differ(x[i], y[i]) {
            return i;
        }
    }
    n
}

// Where the bands part; a list that ends before the other parts from it there.
#[tactic(auto, unfolding(crate::specs::Partings::parting_of))]
pub fn parting(approx: &[f64], detail: &[f64], approx2: &[f64], detail2: &[f64]) -> Parting
    ensures { Parted approx.now detail.now approx2.now detail2.now result }
{
    let i = part_at(approx, approx2);
    if i < approx.len().max(approx2.len()) {
        return Parting::Approx(i);
    }
    let j = part_at(detail, detail2);
    if j < detail.len().max(detail2.len()) {
        return Parting::Detail(j);
    }
    Parting::Same
}
