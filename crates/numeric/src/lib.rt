// The layout of PostgreSQL's binary NUMERIC.
#![tactic(auto)]

pub mod fault;
pub mod law;
pub mod layout;
pub mod sign_word;
