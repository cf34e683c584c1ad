//! Linear algebra over every field: definitions and theorems that other crates cite, and hardly any code. Each theorem
//! stands in the contract of a function, which is proved for every implementation of `Field`.
#![tactic(auto)]

pub mod examples;
pub mod theorems;
