//! Worked examples of blocks, as tests. It is a crate of its own, so that the crates below are not
//! proved twice.
#![tactic(auto)]

#[cfg(test)]
mod fixtures;
#[cfg(test)]
mod hour_tests;
#[cfg(test)]
mod refusal_tests;
#[cfg(test)]
mod session_tests;
#[cfg(test)]
mod slip_tests;
