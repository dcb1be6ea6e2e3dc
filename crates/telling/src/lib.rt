// How anything is told to C: a number, and what it carries in lent words; and borders by number.
#![tactic(auto)]

pub mod borders;
pub mod told;
