// Fractions written as packages of PostgreSQL's binary NUMERIC.
#![tactic(auto)]

mod extent;
pub mod group_sink;
pub mod group_state;
mod header;
mod measure;
mod measured;
mod plan;
mod precision;
mod put;
mod shape;
pub mod writer;
