// Whole numbers of several types, each with a greatest of its own, and what is worked out once for all of them.
#![tactic(auto)]

pub mod conversion;
pub mod counting;
pub mod divisor;
pub mod integer;
pub mod machine;
pub mod sign;
