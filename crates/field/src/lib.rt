//! Arithmetic in finite fields of at most 65521 elements, with its laws proved.
#![tactic(auto)]

pub mod fields;
pub mod octets;
pub mod primes;
