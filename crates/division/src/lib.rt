// Long division of two numbers, digit by digit, into sinks that may stop and be followed by others.
#![tactic(auto)]

mod block;
pub mod counter;
pub mod cut;
mod digit;
pub mod fault;
pub mod fraction;
mod integral_state;
mod proper;
pub mod serve;
pub mod sink;
pub mod state;
pub mod text;
pub mod whole;
pub mod worked;
