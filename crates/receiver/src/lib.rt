//! The receiver: a block keeps an hour of noted minutes and frames, settles it, and disputes it.
#![tactic(auto)]

pub mod blocks;
pub mod settlements;
pub mod slips;
pub mod stages;
