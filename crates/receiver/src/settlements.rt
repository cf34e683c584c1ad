//! How a block's settle ends.
ghost use Rattle.std.specs.Prelude.{◌≡◌};
ghost use Rattle.solver.specs.Outcomes.{outcome_case};
ghost use Rattle.receiver.specs.Settlements.{settlement_case, settlement_of};
ghost use Rattle.receiver.specs.Stages.{stage_case};

use crate::stages::Stage;
use solver::outcomes::{Count, Extent, Failure, Outcome};

/// How a block's settle ends.
#[derive(Clone, Copy, PartialEq, Eq, Debug)]
pub enum Settlement {
    /// the minutes found fit; where it is whole, no others do
    Solved(Extent, Count),
    /// no minutes fit
    Contradiction(Count),
    /// an answer of the scout was false
    Failed(Failure),
}

impl Settlement {
    // The settlement of a run that ended so, over an hour of `width` minutes, of which `noted` are
    // noted.
    pub(crate) fn of(outcome: Outcome, noted: usize, width: usize) -> Settlement
        ensures { settlement_case result ≡ settlement_of (outcome_case outcome) noted width }
    {
        match outcome {
            Outcome::Solved(count) => Settlement::Solved(count.extent(noted, width), count),
            Outcome::Contradiction(count) => Settlement::Contradiction(count),
            Outcome::Failed(failure) => Settlement::Failed(failure),
        }
    }
}

/// A law: no two settlements, and no two stages, have the same number and values. The call does
/// nothing.
pub fn answers_are_told_apart()
    ensures settlements { (a b : Settlement) → settlement_case a ≡ settlement_case b → a ≡ b }
    ensures stages { (a b : Stage) → stage_case a ≡ stage_case b → a ≡ b }
{}
