// The bank of filters: its record, how it is made, and the lengths that a user has to know to lend buffers.
#![tactic(auto)]

pub mod lengths;
pub mod making;
pub mod sizes;
pub mod taps;
pub mod work;

use border::Border;

// Both tap lists of the way there and both of the way back, `taps` of each array in use, and the border.
#[derive(Clone, Copy)]
pub struct Bank<R: Copy = f64> {
    pub low: [R; 64],
    pub high: [R; 64],
    pub lowback: [R; 64],
    pub highback: [R; 64],
    pub taps: usize,
    pub border: Border,
}
