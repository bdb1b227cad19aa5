// Sixteen decimal digits in a word of 64 bits, as one more integer type.
#![tactic(auto)]

pub mod fault;
pub mod packed_decimal;
