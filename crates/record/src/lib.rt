// A depth record of twenty bytes, and what it asks for.
#![tactic(auto)]

mod depth;
pub mod fault;
mod kind;
pub mod request;
