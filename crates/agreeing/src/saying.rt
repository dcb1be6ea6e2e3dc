// Where two pairs of bands part, as a text.
ghost use Rattle.std.specs.Prelude.{false};
ghost use Rattle.laying.specs.Lays.{Lays};
ghost use Rattle.printing.specs.Printings.{Printed};
ghost use Rattle.agreeing.specs.Agreements.{parting_text};

use laying::bytes;
use parting::Parting;
use printing::work::head;
use printing::{PrintError, print_by};

// The text as far as the buffer reaches, and its length.
fn lay_parting(parting: Parting, out: &mut [u8]) -> usize
    ensures { Lays (parting_text parting) out.old result out.new }
{
    match parting {
        Parting::Same => bytes(b"same\n", out),
        Parting::Approx(k) => head(b"approx ", k as u64, out),
        Parting::Detail(k) => head(b"detail ", k as u64, out),
    }
}

pub fn print_parting(parting: Parting, out: &mut [u8]) -> Result<usize, PrintError>
    ensures { Printed false (parting_text parting) out.old result out.new }
{
    print_by(|out| lay_parting(parting, out), out)
}
