//! The settle and the row rank profile over any rows, for any field; a settle with any scout.
#![tactic(auto)]

pub mod faults;
pub mod findings;
pub mod outcomes;
mod pivots;
pub mod profiles;
pub mod questions;
pub mod runs;
pub mod scouts;
pub mod spaces;
mod vectors;
