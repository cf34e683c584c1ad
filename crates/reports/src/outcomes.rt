//! How a run ended, as text.
ghost use Rattle.std.specs.Prelude.{◌≡◌};
ghost use Rattle.solver.specs.Outcomes.{extent_case};
ghost use Rattle.reports.specs.Texts.{extent_text, side_text, fault_text};

use crate::numbers::Numbers;
use solver::faults::Fault;
use solver::outcomes::{Count, Extent, Outcome};
use solver::questions::Side;
use std::fmt;

/// How a run ended, for rows of so many minutes, of which so many are noted, and the codes that it
/// wrote: the minutes or the blame.
#[derive(Clone, Copy)]
pub struct OutcomeText<'a> {
    pub outcome: Outcome,
    pub noted: usize,
    pub width: usize,
    pub codes: &'a [u16],
}

fn extent_name(extent: Extent) -> &'static str
    ensures { result.now ≡ extent_text (extent_case extent) }
{
    match extent {
        Extent::Whole => "whole",
        Extent::Part => "part",
    }
}

fn side_name(side: Side) -> &'static str
    ensures { result.now ≡ side_text side }
{
    match side {
        Side::Row => "row",
        Side::Column => "column",
    }
}

fn fault_name(fault: Fault) -> &'static str
    ensures { result.now ≡ fault_text fault }
{
    match fault {
        Fault::Missed(_) => "none",
        Fault::Zero(_) => "place",
        Fault::NoPlace(_) => "outside",
    }
}

impl fmt::Display for OutcomeText<'_> {
    ghost use Rattle.std.specs.Prelude.{Some};
    ghost use Rattle.reports.specs.Texts.{outcome_text};

    ghost output = { λ text.
        Some (outcome_text text.outcome text.noted text.width text.codes.now) };

    fn fmt<W: fmt::Write>(&self, f: &mut fmt::Formatter<W>) -> fmt::Result {
        let codes = Numbers {
            numbers: self.codes,
        };
        match self.outcome {
            Outcome::Solved(count) => {
                let extent = extent_name(count.extent(self.noted, self.width));
                let Count { pivots, questions } = count;
                write!(f, "solved,{extent},{pivots},{questions}{codes}")
            }
            Outcome::Contradiction(Count { pivots, questions }) => {
                write!(f, "contradiction,{pivots},{questions}{codes}")
            }
            Outcome::Failed(failure) => {
                let question = failure.question;
                let side = side_name(failure.side);
                let kind = fault_name(failure.fault);
                let place = failure.fault.place();
                write!(f, "failed,{question},{side},{kind},{place}")
            }
        }
    }
}
