// Tables: lines one after another in one lent buffer, the sides that they may have, and their crossing.
#![tactic(auto)]

pub mod sides;
pub mod work;
