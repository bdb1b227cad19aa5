// Divisions worked by hand, run on the code, and what a user knows of one from the contracts alone.
#![tactic(auto)]

#[cfg(test)]
mod fraction;
pub mod length;
#[cfg(test)]
mod serve;
#[cfg(test)]
mod sinks;
#[cfg(test)]
mod whole;
pub mod written;
