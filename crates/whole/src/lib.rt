#![tactic(auto)]

// Laws alone: sums of whole numbers, and floats that are whole numbers.
