// Answers about levels told to C, each by its number and what it carries.
#![tactic(auto)]

pub mod told;
