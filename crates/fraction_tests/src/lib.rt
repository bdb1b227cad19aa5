// Fractions worked by hand, run on the code.
#![tactic(auto)]

#[cfg(test)]
mod made;
#[cfg(test)]
mod raw;
