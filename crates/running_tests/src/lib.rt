//! Tests from programs to C texts and runs: the arithmetic of words, lists, devices, the variables of a
//! scope, the statements of an expression, loop programs with their counts and C texts, the commands over
//! memory and over the host, runs of pipelines and C texts, benches, and texts at the limits.
//!
//! It depends on the crates that it tests, and nothing depends on it. It has nothing but tests: what no
//! clause says, as that each call succeeds where there is memory and that the adapters to the host count
//! its errors, and that the definitions mean what they are meant to, by cases worked out by hand.
#![tactic(auto)]

#[cfg(test)]
mod agreement;
#[cfg(test)]
mod benches;
#[cfg(test)]
mod commands;
#[cfg(test)]
mod devices;
#[cfg(test)]
mod expressions;
#[cfg(test)]
mod limits;
#[cfg(test)]
mod lists;
#[cfg(test)]
mod loop_programs;
#[cfg(test)]
mod runs;
#[cfg(test)]
mod words;
