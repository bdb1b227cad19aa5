// Exact fractions with a sign of their own, and the values that are no number.
#![tactic(auto)]

pub mod fault;
pub mod generic_fraction;
pub mod ratio;
