//! Lines: bytes cut into fields, and the lines that open an hour and carry a frame.
#![tactic(auto)]

pub mod answers;
pub mod entries;
pub mod fields;
pub mod kinds;
pub mod numbers;
pub mod openings;
pub mod parts;
pub mod reading;
pub mod tokens;
pub mod writing;
