// Analysis over levels by tap lists, for an entry that has a bank and for one that has the caller's own lists.
ghost use Rattle.std.specs.Prelude.{length};
ghost use Rattle.bank.specs.Lengths.{Counted};
ghost use Rattle.levels.specs.Analyses.{Analysed};

use crate::levels_answer;
use crate::work::split;
use border::Border;
use packed::LevelsError;

// A line over levels, into the packed buffer.
pub fn analyse_levels<'a>(
    low: &'a [f64],
    high: &'a [f64],
    f: usize,
    border: Border,
    line: &[f64],
    levels: usize,
    packed: &mut [f64],
    scratch: &mut [f64],
) -> Result<(), LevelsError>
    requires { Counted f (length low.now) (length high.now) }
    ensures { Analysed low.now high.now f border line.now levels packed.old scratch.old
        result packed.new scratch.new }
{
    levels_answer(line.len(), f, levels, packed.len(), scratch.len())?;
    split(low, high, f, border, line, levels.max(1), packed, scratch);
    Ok(())
}
