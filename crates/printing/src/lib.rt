// What the program prints, onto a lent buffer: two bands, or a refusal.
#![tactic(auto)]

pub mod work;

ghost use Rattle.std.specs.Prelude.{false, List, ℕ};
ghost use Rattle.texts.specs.Prints.{bands_text, refusal_text};
ghost use Rattle.laying.specs.Lays.{Lays};
ghost use Rattle.printing.specs.Printings.{too_long, Printed};

use crate::work::{bands, head};
use numbers::LONGEST;

// Why a text is not printed.
#[derive(Clone, Copy, Debug, PartialEq, Eq)]
pub enum PrintError {
    InputSize { need: usize, have: usize },
    Limit,
}

// The text that `lay` lays, whole or not at all; its first laying, onto no place, tells how much room the text needs.
pub fn print_by<F: Fn(&mut [u8]) -> usize>(lay: F, out: &mut [u8]) -> Result<usize, PrintError>
    ghost text: { List ℕ }
    requires callable { F.IsAlwaysCallable lay }
    requires lays { (x : _) (n : _) (y : _) → F.post lay x n y → Lays text x.now n y.now }
    ensures { Printed false text out.old result out.new }
{
    let need = lay(&mut out[..0]);
    if out.len() < need {
        return Err(PrintError::InputSize {
            need,
            have: out.len(),
        });
    }
    Ok(lay(out))
}

// Both bands, each under its word and its count.
pub fn print_bands(approx: &[f64], detail: &[f64], out: &mut [u8]) -> Result<usize, PrintError>
    ensures { Printed (too_long approx.now detail.now) (bands_text approx.now detail.now) out.old result out.new }
{
    if LONGEST < approx.len() || LONGEST < detail.len() {
        return Err(PrintError::Limit);
    }
    print_by(|out| bands(approx, detail, out), out)
}

// The word and the number of a refusal.
pub fn print_refusal(number: u64, out: &mut [u8]) -> Result<usize, PrintError>
    ensures { Printed false (refusal_text number) out.old result out.new }
{
    print_by(|out| head(b"refused ", number, out), out)
}
