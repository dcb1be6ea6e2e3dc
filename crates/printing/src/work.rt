// The texts in parts, each laid behind the one before; every function answers its text's length, whatever room there is.
ghost use Rattle.std.specs.Prelude.{◌++◌, ◌≤◌, length};
ghost use Rattle.numbers.specs.Words.{longest};
ghost use Rattle.texts.specs.Prints.{floats_text, bands_text};
ghost use Rattle.laying.specs.Lays.{Lays};
ghost use Rattle.printing.specs.Printings.{count_text};

use laying::bytes;
use laying::digits::{bits, decimal};

// Floats, a line each.
fn floats(l: &[f64], out: &mut [u8]) -> usize
    requires { length l.now ≤ longest }
    ensures { Lays (floats_text l.now) out.old result out.new }
{
    let mut n = 0usize;
    for x in l {
        let k = n.min(out.len());
        n += bits(*x, &mut out[k..]);
    }
    n
}

// A word, which has its space, and a number's line.
pub fn head(word: &[u8], n: u64, out: &mut [u8]) -> usize
    requires { length word.now ≤ 8 }
    ensures { Lays (count_text word.now n) out.old result out.new }
{
    let m = bytes(word, out);
    let k = m.min(out.len());
    m + decimal(n, &mut out[k..])
}

fn band(word: &[u8], l: &[f64], out: &mut [u8]) -> usize
    requires { (length word.now ≤ 8) × (length l.now ≤ longest) }
    ensures { Lays (count_text word.now (length l.now) ++ floats_text l.now) out.old result out.new }
{
    let n = head(word, l.len() as u64, out);
    let k = n.min(out.len());
    n + floats(l, &mut out[k..])
}

pub fn bands(approx: &[f64], detail: &[f64], out: &mut [u8]) -> usize
    requires { (length approx.now ≤ longest) × (length detail.now ≤ longest) }
    ensures { Lays (bands_text approx.now detail.now) out.old result out.new }
{
    let n = band(b"approx ", approx, out);
    let k = n.min(out.len());
    n + band(b"detail ", detail, &mut out[k..])
}
