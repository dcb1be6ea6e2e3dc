// Texts laid onto the front of a buffer, as far as it reaches: bytes, and numbers by their digits.
#![tactic(auto)]

pub mod digits;

ghost use Rattle.laying.specs.Lays.{Lays};

pub fn bytes(text: &[u8], out: &mut [u8]) -> usize
    ensures { Lays text.now out.old result out.new }
{
    let n = text.len().min(out.len());
    out[..n].copy_from_slice(&text[..n]);
    text.len()
}
