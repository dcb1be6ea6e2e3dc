// What C links to: the exports, which call the functions of their names in `isferghul` and promise what those do.
#![tactic(auto)]

mod depths;
mod direct;
mod lines;
mod lines_f32;
mod packing;
mod places;
mod planar;
mod sizes;
mod taps;
mod taps_f32;
