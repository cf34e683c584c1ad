//! Rows for reading, and the ledgers that keep them.
#![tactic(auto)]

pub mod caps;
pub mod ledgers;
pub mod reading;
pub mod sizes;
pub mod tables;
pub mod terms;
pub mod values;
