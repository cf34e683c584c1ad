//! What is reported of rows as text: their row rank profile, and how they settle.
#![tactic(auto)]

pub mod numbers;
pub mod outcomes;
pub mod reports;
