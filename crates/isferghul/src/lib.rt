// The library for C: numbers and slices in, a number back (RULES, Numbers), and what it carries in lent words.
#![tactic(auto)]

pub mod depths;
pub mod direct;
pub mod lines;
pub mod packing;
pub mod places;
pub mod planar;
pub mod sizes;
pub mod taps;
