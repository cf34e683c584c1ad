//! The run of a settle.
ghost use Rattle.std.specs.Prelude.{◌≡◌, ◌≢◌, ℕ, ◌+◌, ◌<◌, List, length};
ghost use Rattle.std.specs.Prelude.{Option, Some, None, IfOk, OnErr};
ghost use Rattle.frame.specs.Refusals.{refusal_only};
ghost use Rattle.rows.specs.Values.{entry};
ghost use Rattle.algebra.specs.Places.{Outside};
ghost use Rattle.algebra.specs.Pivots.{Pivots, schur, row_coefficients};
ghost use Rattle.solver.specs.Steps.Pivots.{PivotsOfRows};
ghost use Rattle.solver.specs.Questions.{asked, TrueAnswer};
ghost use Rattle.solver.specs.Outcomes.{outcome_case, IsFailed};
ghost use Rattle.solver.specs.Scouts.{scan_meaning};
ghost use Rattle.solver.specs.Runs.{Exchange, question_of};
ghost use Rattle.solver.specs.Laws.{Settles, settle_answer};
ghost use Rattle.solver.specs.Steps.Vectors.{Begins};
ghost use Rattle.solver.specs.Steps.Spaces.{pivots_of};
ghost use Rattle.solver.specs.Steps.Turns.{state, ended, Continues, Put, Turned, Grown};
ghost use Rattle.solver.specs.declared.scouts.Scan.{Scan};

use crate::faults::verify;
use crate::findings::Findings;
use crate::outcomes::{Count, Failure, Outcome};
use crate::pivots::PivotSpace;
use crate::questions::Question;
use crate::scouts::{Scan, Scout};
use crate::spaces::WORK_WORDS;
use field::fields::Field;
use frame::refusals::Refusal;
use rows::reading::Rows;
use rows::sizes::MOST_MINUTES;

// Puts a question, which has this number: the scout's answer, or how the run ends where that is
// false. Wherever the run stands, if this is its next question, so it goes on.
fn put<F: Field, R: Rows, S: Scout<F>>(
    rows: &R,
    scout: &mut S,
    number: usize,
    question: Question<'_>,
) -> Result<Option<usize>, Outcome>
    ensures continues { let T = R.system rows.now in
        (P : Pivots) (row : Option ℕ) (before : List Exchange) →
        asked question.entry ≡ question_of F.ops T P row → number ≡ length before + 1 →
        Continues F.ops T S.meaning (state P row before) scout.old scout.new (ended result) }
    ensures truth { IfOk result (TrueAnswer F.ops (R.system rows.now) (asked question.entry)) }
{
    let answer = scout.ask(rows, question);
    match verify::<F, R>(rows, question, answer) {
        Ok(answer) => Ok(answer),
        Err(fault) => Err(Outcome::Failed(Failure {
            question: number,
            side: question.side(),
            fault,
        })),
    }
}

// The row question of these pivots: the row that the scout names, or how the run ends.
fn ask_rows<F: Field, R: Rows, S: Scout<F>>(
    rows: &R,
    scout: &mut S,
    pivots: &PivotSpace<'_>,
    findings: &mut Findings,
) -> Result<usize, Outcome>
    requires { PivotsOfRows F.ops (R.system rows.now) (pivots_of pivots.now) }
    ensures put { let P = pivots_of pivots.now in
        (exchanges : List Exchange) → length exchanges ≡ P.count + P.count →
        Put F.ops (R.system rows.now) S.meaning (state P None exchanges)
        scout.old scout.new findings.old findings.new (ended result) }
    ensures there { IfOk result (λ i. i < length (R.system rows.now).rows) }
    ensures outside { IfOk result (Outside pivots.now.count (pivots_of pivots.now).row) }
{
    let questions = 2 * pivots.count() + 1;
    let x = pivots.solution::<F, R>(rows);
    let x = &x[..rows.width()];
    let Some(row) = put::<F, R, S>(rows, scout, questions, Question::Row(x))? else {
        findings.write_minutes(x);
        return Err(Outcome::Solved(Count {
            pivots: pivots.count(),
            questions,
        }));
    };
    Ok(row)
}

// The column question of a row: the minute that the scout names, or how the run ends.
fn ask_columns<F: Field, R: Rows, S: Scout<F>>(
    rows: &R,
    scout: &mut S,
    pivots: &PivotSpace<'_>,
    row: usize,
    coefficients: &[u16; MOST_MINUTES],
    findings: &mut Findings,
) -> Result<usize, Outcome>
    requires pivots { PivotsOfRows F.ops (R.system rows.now) (pivots_of pivots.now) }
    requires there { row < length (R.system rows.now).rows }
    requires outside { Outside pivots.now.count (pivots_of pivots.now).row row }
    requires coefficients { let P = pivots_of pivots.now in
        let A = entry F.ops (R.system rows.now) in
        Begins P.count (row_coefficients F.ops A P row) coefficients.now }
    ensures put { let P = pivots_of pivots.now in
        (exchanges : List Exchange) → length exchanges ≡ P.count + P.count + 1 →
        Put F.ops (R.system rows.now) S.meaning (state P (Some row) exchanges)
        scout.old scout.new findings.old findings.new (ended result) }
    ensures below { IfOk result (λ j. j < (R.system rows.now).width) }
    ensures pivot { let A = entry F.ops (R.system rows.now) in
        IfOk result (λ j. schur F.ops A (pivots_of pivots.now) row j ≢ 0) }
{
    let questions = 2 * pivots.count() + 2;
    let u = pivots.multipliers::<F>(row, coefficients);
    let u = &u[..rows.row_count()];
    let Some(minute) = put::<F, R, S>(rows, scout, questions, Question::Column(u))? else {
        findings.write_blame(u);
        return Err(Outcome::Contradiction(Count {
            pivots: pivots.count(),
            questions,
        }));
    };
    Ok(minute)
}

// One turn: the row question, the column question of the row named, and a pivot more; or how the
// run ends.
fn turn<F: Field, R: Rows, S: Scout<F>>(
    rows: &R,
    scout: &mut S,
    pivots: &mut PivotSpace<'_>,
    findings: &mut Findings,
) -> Result<(), Outcome>
    requires { PivotsOfRows F.ops (R.system rows.now) (pivots_of pivots.old) }
    ensures turned { Turned F.ops (R.system rows.now) S.meaning
        (pivots_of pivots.old) (pivots_of pivots.new)
        scout.old scout.new findings.old findings.new (ended result) }
    ensures grown { let P = pivots_of pivots.old in
        Grown F.ops (R.system rows.now) P (pivots_of pivots.new) result }
{
    let row = ask_rows::<F, R, S>(rows, scout, pivots, findings)?;
    let coefficients = pivots.row_coefficients::<F, R>(rows, row);
    let minute = ask_columns::<F, R, S>(rows, scout, pivots, row, &coefficients, findings)?;
    pivots.grow::<F, R>(rows, row, minute, &coefficients);
    Ok(())
}

// Turn after turn from no pivots on, until the run ends.
fn complete<F: Field, R: Rows, S: Scout<F>>(
    rows: &R,
    scout: &mut S,
    pivots: &mut PivotSpace<'_>,
    findings: &mut Findings,
) -> Outcome
    requires { pivots.old.count ≡ 0 }
    ensures { Settles F.ops (R.system rows.now) S.meaning
        scout.old scout.new findings.old findings.new result }
{
    loop {
        if let Err(outcome) = turn::<F, R, S>(rows, scout, pivots, findings) {
            return outcome;
        }
    }
}

/// Settles the rows: finds minutes that satisfy them all, or shows that none do, with pivots that
/// the scout names, or fails at a false answer of the scout. What is found stands in the record:
/// the minutes of a solved run, or the blame of a contradiction. Refuses a work space under 8192
/// words (6), and then changes nothing. What an accepted call leaves in the work space is left
/// free.
pub fn settle<F: Field, R: Rows, S: Scout<F>>(
    rows: &R,
    scout: &mut S,
    work: &mut [u16],
    findings: &mut Findings,
) -> Result<Outcome, Refusal>
    ensures answer { refusal_only result ≡ settle_answer (length work.old) }
    ensures settles { IfOk result (Settles F.ops (R.system rows.now) S.meaning
        scout.old scout.new findings.old findings.new) }
    ensures scout { OnErr result (scout.new ≡ scout.old) }
    ensures work { OnErr result (work.new ≡ work.old) }
    ensures findings { OnErr result (findings.new ≡ findings.old) }
{
    if work.len() < WORK_WORDS {
        return Err(Refusal::SpaceTooShort);
    }
    let mut pivots = PivotSpace::new(work);
    Ok(complete::<F, R, S>(rows, scout, &mut pivots, findings))
}

/// Settles by the scan, whose answers are all true, so that the run never fails. Refuses as
/// `settle` does.
pub fn settle_by_scan<F: Field, R: Rows>(
    rows: &R,
    work: &mut [u16],
    findings: &mut Findings,
) -> Result<Outcome, Refusal>
    ensures answer { refusal_only result ≡ settle_answer (length work.old) }
    ensures settles { (scan : Scan) →
        IfOk result (Settles F.ops (R.system rows.now) (scan_meaning F.ops)
        scan scan findings.old findings.new) }
    ensures never_fails { IfOk result (λ outcome. ¬ IsFailed (outcome_case outcome)) }
    ensures work { OnErr result (work.new ≡ work.old) }
    ensures findings { OnErr result (findings.new ≡ findings.old) }
{
    settle::<F, R, Scan>(rows, &mut Scan, work, findings)
}
