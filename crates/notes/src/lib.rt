//! Noted minutes over rows.
#![tactic(auto)]

pub mod layers;
mod notes;
