#![tactic(auto)]

// Definitions and laws alone: what stands in a text that the program reads, and in one that it prints.
