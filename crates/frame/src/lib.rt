//! Frames: up to sixteen weighted minutes and their sum, and the refusals that every layer speaks.
#![tactic(auto)]

pub mod buffers;
pub mod checks;
pub mod frames;
pub mod refusals;
pub mod terms;
