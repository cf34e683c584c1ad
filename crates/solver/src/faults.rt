//! Answers that are verified, and the faults of false ones.
ghost use Rattle.std.specs.Prelude.{◌≡◌};
ghost use Rattle.solver.specs.Outcomes.{fault_place, faulted};
ghost use Rattle.solver.specs.Questions.{asked, verified, Verifies};

use crate::questions::Question;
use field::fields::Field;
use rows::reading::Rows;

/// What is false in an answer, with the place that shows it.
#[derive(Clone, Copy, PartialEq, Eq, Debug)]
pub enum Fault {
    /// none was answered, though this place, the first such, is not 0
    Missed(usize),
    /// the value at the place is 0
    Zero(usize),
    /// there is no such place
    NoPlace(usize),
}

impl Fault {
    /// The place that shows the fault.
    pub fn place(&self) -> usize
        ensures { result ≡ fault_place self.now }
    {
        match self {
            Fault::Missed(place) | Fault::Zero(place) | Fault::NoPlace(place) => *place,
        }
    }
}

/// An answer verified: itself where it is true, else its fault. For a place its value alone is
/// worked out; for none the values of rows up to the first that is not 0, and of columns all.
pub fn verify<F: Field, R: Rows>(
    rows: &R,
    question: Question<'_>,
    answer: Option<usize>,
) -> Result<Option<usize>, Fault>
    ensures answer { let S = R.system rows.now in
        faulted result ≡ verified F.ops S (asked question.entry) answer }
    ensures verifies { let S = R.system rows.now in
        Verifies F.ops S (asked question.entry) answer (faulted result) }
{
    let Some(place) = answer else {
        return match question.first_place::<F, R>(rows) {
            Some(place) => Err(Fault::Missed(place)),
            None => Ok(None),
        };
    };
    match question.value::<F, R>(rows, place) {
        Some(0) => Err(Fault::Zero(place)),
        Some(_) => Ok(answer),
        None => Err(Fault::NoPlace(place)),
    }
}
