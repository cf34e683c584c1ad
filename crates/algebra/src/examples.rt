//! The definitions and the theorems at a matrix of three rows.
ghost use Rattle.algebra.specs.Examples.{Computed, Applied};

// The definitions compute to known values.
pub fn definitions_compute()
    ensures { Computed }
{}

// The theorems apply: there is one profile, one solution, and none where a combination leaves something.
pub fn theorems_apply()
    ensures { Applied }
{}
