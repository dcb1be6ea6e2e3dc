// Restoring by tap lists, for an entry that has a bank and for one that has the caller's own lists.
ghost use Rattle.std.specs.Prelude.{length};
ghost use Rattle.bank.specs.Lengths.{Counted};
ghost use Rattle.restoring.specs.Restorings.{Restored};
ghost use Rattle.restoring.specs.Dividings.{DividedBack};

use crate::divided::{DividedError, divided_answer};
use crate::restoring_answer;
use crate::work::{restore, restore_by};
use dividing::Finish;
use packed::LevelsError;

// The line comes to stand at the front of the first buffer if the levels are odd in number, of the second if even.
pub fn restore_levels<'a>(
    low: &'a [f64],
    high: &'a [f64],
    f: usize,
    packed: &[f64],
    n: usize,
    levels: usize,
    first: &mut [f64],
    second: &mut [f64],
) -> Result<(), LevelsError>
    requires { Counted f (length low.now) (length high.now) }
    ensures { Restored low.now high.now f packed.now n levels first.old second.old
        result first.new second.new }
{
    restoring_answer(n, f, levels, packed.len(), first.len(), second.len())?;
    restore(low, high, f, packed, n, levels.max(1), first, second);
    Ok(())
}

// The same, each joined line divided by s.
pub fn restore_divided<'a>(
    low: &'a [f64],
    high: &'a [f64],
    f: usize,
    s: f64,
    packed: &[f64],
    n: usize,
    levels: usize,
    first: &mut [f64],
    second: &mut [f64],
) -> Result<(), DividedError>
    requires { Counted f (length low.now) (length high.now) }
    ensures { DividedBack low.now high.now f s packed.now n levels first.old second.old
        result first.new second.new }
{
    divided_answer(n, f, s, levels, packed.len(), first.len(), second.len())?;
    let by = Finish::DividedBy(s);
    restore_by(low, high, f, by, packed, n, levels.max(1), first, second);
    Ok(())
}
