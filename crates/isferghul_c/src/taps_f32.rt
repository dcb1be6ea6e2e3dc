// Taps of 32-bit floats, for C: the exports, each that of the same name without its end in `isferghul`.
ghost use Rattle.isferghul.specs.Lines.{MirrorTold};

use isferghul::taps;

#[unsafe(no_mangle)]
pub extern "C" fn isferghul_mirror_f32(low: &[f32], high: &mut [f32]) -> u64
    ensures { MirrorTold low.now high.old result high.new }
{
    taps::isferghul_mirror(low, high)
}
