//! The lines of a log that opens an hour and fills it with frames.
#![tactic(auto)]

pub mod ends;
pub mod hours;
pub mod sessions;
