//! Scouts.
ghost use Rattle.std.specs.Prelude.{◌≡◌};
ghost use Rattle.solver.specs.Questions.{asked};
ghost use Rattle.solver.specs.Scouts.{ScoutMeaning, scan_meaning};

use crate::questions::Question;
use field::fields::Field;
use rows::reading::Rows;

/// A scout: it is asked about given rows and names a place whose value it says is not 0, or none.
/// It may be wrong. What it means is the answer that its present state gives to each question, and
/// the state after it.
pub trait Scout<F: Field> {
    ghost meaning: { ScoutMeaning Self };

    /// The answer to a question about rows: a place, or none.
    fn ask<R: Rows>(&mut self, rows: &R, question: Question<'_>) -> Option<usize>
        ensures answer { let S = R.system rows.now in
            result ≡ meaning.answer self.old S (asked question.entry) }
        ensures after { let S = R.system rows.now in
            self.new ≡ meaning.after self.old S (asked question.entry) };
}

/// The scan: the scout that names the first place whose value is not 0.
#[derive(Clone, Copy, PartialEq, Eq, Debug)]
pub struct Scan;

impl<F: Field> Scout<F> for Scan {
    ghost meaning = { scan_meaning F.ops };

    fn ask<R: Rows>(&mut self, rows: &R, question: Question<'_>) -> Option<usize> {
        question.first_place::<F, R>(rows)
    }
}
