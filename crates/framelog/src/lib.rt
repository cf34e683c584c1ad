//! A log of lines that comes in chunks: each line is answered, in memory that does not grow.
#![tactic(auto)]

pub mod answerers;
pub mod buffers;
pub mod checks;
pub mod logs;
pub mod parts;
pub mod streams;
