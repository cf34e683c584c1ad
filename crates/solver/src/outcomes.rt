//! How a run ends.
ghost use Rattle.std.specs.Prelude.{◌≡◌};
ghost use Rattle.solver.specs.Outcomes.{outcome_case, extent_case, extent_of};

use crate::faults::Fault;
use crate::questions::Side;

/// Whether a solved run leaves no choice: whole where pivots and noted minutes together are as many
/// as the minutes.
#[derive(Clone, Copy, PartialEq, Eq, Debug)]
pub enum Extent {
    /// no other minutes fit
    Whole,
    /// others may fit
    Part,
}

/// How many pivots a run found, and how many questions it put.
#[derive(Clone, Copy, PartialEq, Eq, Debug)]
pub struct Count {
    pub pivots: usize,
    pub questions: usize,
}

impl Count {
    /// The extent of a solved run over an hour of `width` minutes, of which `noted` are noted.
    pub fn extent(&self, noted: usize, width: usize) -> Extent
        ensures { extent_case result ≡ extent_of self.now.pivots noted width }
    {
        if self.pivots.checked_add(noted) == Some(width) {
            Extent::Whole
        } else {
            Extent::Part
        }
    }
}

/// A false answer: the number of its question, counted from 1, the question's side, and what is
/// false.
#[derive(Clone, Copy, PartialEq, Eq, Debug)]
pub struct Failure {
    pub question: usize,
    pub side: Side,
    pub fault: Fault,
}

/// How a run ends.
#[derive(Clone, Copy, PartialEq, Eq, Debug)]
pub enum Outcome {
    /// the minutes found satisfy every row
    Solved(Count),
    /// no minutes satisfy all rows: a combination of them is impossible
    Contradiction(Count),
    /// an answer was false
    Failed(Failure),
}

/// A law: no two outcomes, and no two extents, have the same number and values. The call does
/// nothing.
pub fn outcomes_are_told_apart()
    ensures outcomes { (a b : Outcome) → outcome_case a ≡ outcome_case b → a ≡ b }
    ensures extents { (a b : Extent) → extent_case a ≡ extent_case b → a ≡ b }
{}
