// Bit fields, byte swaps and bit counts of words.
#![tactic(auto)]

pub mod counts;
pub mod fields;
pub mod swaps;
