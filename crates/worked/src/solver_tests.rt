//! Worked examples of settles and profiles.
use crate::row_tests::{table, take};
use crate::sevens::Seven;
use crate::tests::term;
use field::fields::Field;
use field::octets::Octets;
use field::primes::Prime;
use frame::refusals::Refusal;
use frame::terms::Term;
use notes::layers::Noted;
use reports::outcomes::OutcomeText;
use reports::reports::report_noted;
use rows::reading::Rows;
use rows::tables::Table;
use solver::faults::Fault;
use solver::findings::Findings;
use solver::outcomes::{Count, Extent, Failure, Outcome};
use solver::profiles::profile;
use solver::questions::{Question, Side};
use solver::runs::{settle, settle_by_scan};
use solver::scouts::{Scan, Scout};
use std::process::Abort;
use std::test::Fail;

// A scout that is a scan for some questions, and then gives one answer, whatever is asked.
#[derive(Drop)]
struct FaultyScout {
    true_answers: usize,
    answer: Option<usize>,
}

impl<F: Field> Scout<F> for FaultyScout {
    ghost use Rattle.std.specs.Prelude.{◌==◌, ◌-◌, cond};
    ghost use Rattle.solver.specs.Questions.{first_place};

    ghost meaning = { record {
      answer = λ scout S q. cond (scout.true_answers == 0) scout.answer (first_place F.ops S q);
      after = λ scout S q. record { true_answers = scout.true_answers - 1; answer = scout.answer };
    } };

    fn ask<R: Rows>(&mut self, rows: &R, question: Question<'_>) -> Option<usize> {
        if self.true_answers == 0 {
            return self.answer;
        }
        self.true_answers -= 1;
        question.first_place::<F, R>(rows)
    }
}

// A table of rows, each a sum and terms.
fn rows_of(rt: &impl Abort, width: usize, rows: &[(u16, &[Term])]) -> Result<Table, Fail> {
    let mut table = table(width)?;
    for (number, (sum, terms)) in rows.iter().enumerate() {
        assert_eq!(rt; take(&mut table, *sum, terms), Ok(number));
    }
    Ok(table)
}

fn solved(pivots: usize, questions: usize) -> Result<Outcome, Refusal> {
    Ok(Outcome::Solved(Count { pivots, questions }))
}

fn contradiction(pivots: usize, questions: usize) -> Result<Outcome, Refusal> {
    Ok(Outcome::Contradiction(Count { pivots, questions }))
}

// A record that an earlier run has filled.
fn used_record() -> Findings {
    Findings {
        minutes: [9; 64],
        blame: [8; 96],
    }
}

// A list has these numbers at its head, and this one at every other place.
fn holds(rt: &impl Abort, list: &[u16], head: &[u16], rest: u16) {
    for (place, number) in list.iter().enumerate() {
        assert_eq!(rt; *number, head.get(place).copied().unwrap_or(rest));
    }
}

// The scan ends so and writes these minutes or this blame to the head of the record's, and nothing
// else.
fn settles<F: Field, R: Rows>(
    rt: &impl Abort,
    rows: &R,
    outcome: Result<Outcome, Refusal>,
    minutes: &[u16],
    blame: &[u16],
) {
    let mut work = [65535; 8192];
    let mut findings = used_record();
    assert_eq!(rt;
        settle_by_scan::<F, R>(rows, &mut work, &mut findings),
        outcome
    );
    holds(rt, &findings.minutes, minutes, 9);
    holds(rt, &findings.blame, blame, 8);
}

// A scout that answers falsely after so many true answers fails the settle, which writes nothing
// and asks it no more.
fn fails<F: Field>(
    rt: &impl Abort,
    table: &Table,
    true_answers: usize,
    answer: Option<usize>,
    side: Side,
    fault: Fault,
) {
    let mut faulty = FaultyScout {
        true_answers,
        answer,
    };
    let mut work = [0; 8192];
    let mut findings = used_record();
    let question = true_answers.saturating_add(1);
    let failed = Ok(Outcome::Failed(Failure {
        question,
        side,
        fault,
    }));
    assert_eq!(rt;
        settle::<F, Table, FaultyScout>(table, &mut faulty, &mut work, &mut findings),
        failed
    );
    assert_eq!(rt; faulty.true_answers, 0);
    holds(rt, &findings.minutes, &[], 9);
    holds(rt, &findings.blame, &[], 8);
}

#[test]
fn a_session_settles(rt: HostRuntime) -> Result<(), Fail> {
    let mut table = rows_of(
        &rt,
        2,
        &[(5, &[term(0, 1)]), (12, &[term(0, 1), term(1, 1)])],
    )?;
    settles::<Prime, Table>(&rt, &table, solved(2, 5), &[5, 7], &[]);
    assert_eq!(rt; take(&mut table, 18, &[term(0, 2), term(1, 1)]), Ok(2));
    settles::<Prime, Table>(&rt, &table, contradiction(2, 6), &[], &[65520, 65520, 1]);
    let last = rows_of(&rt, 2, &[(1, &[term(0, 1)]), (65520, &[term(1, 1)])])?;
    fails::<Prime>(&rt, &last, 0, None, Side::Row, Fault::Missed(0));
    Ok(())
}

#[test]
fn small_rows_settle(rt: HostRuntime) -> Result<(), Fail> {
    settles::<Prime, Table>(&rt, &rows_of(&rt, 2, &[])?, solved(0, 1), &[0, 0], &[]);
    settles::<Seven, Table>(
        &rt,
        &rows_of(&rt, 1, &[(6, &[term(0, 3)])])?,
        solved(1, 3),
        &[2],
        &[],
    );
    settles::<Octets, Table>(
        &rt,
        &rows_of(&rt, 1, &[(29, &[term(0, 2)])])?,
        solved(1, 3),
        &[128],
        &[],
    );
    settles::<Octets, Table>(
        &rt,
        &rows_of(&rt, 1, &[(29, &[term(0, 256)])])?,
        contradiction(0, 2),
        &[],
        &[1],
    );
    let zeros = rows_of(
        &rt,
        64,
        &[(0, &[term(0, 1), term(63, 9)]), (0, &[term(5, 1)])],
    )?;
    settles::<Prime, Table>(&rt, &zeros, solved(0, 1), &[0; 64], &[]);
    Ok(())
}

// An hour of two minutes, both noted, with a row of this sum, 2 and 1 times the minutes 5 and 7.
fn all_noted(rt: &impl Abort, sum: u16) -> Result<Noted<Prime, Table>, Fail> {
    let rows = rows_of(rt, 2, &[(sum, &[term(0, 2), term(1, 1)])])?;
    let mut noted = Noted::new(rows);
    for (minute, code) in [(0, 5), (1, 7)] {
        assert_eq!(rt; noted.note(minute, code), Ok(()));
    }
    Ok(noted)
}

#[test]
fn an_hour_that_is_all_notes_settles(rt: HostRuntime) -> Result<(), Fail> {
    let noted = all_noted(&rt, 17)?;
    settles::<Prime, Noted<Prime, Table>>(&rt, &noted, solved(0, 1), &[0, 0], &[]);
    let mut x = [0; 2];
    noted.put_in(&mut x);
    assert_eq!(rt; x, [5, 7]);
    let report = report_noted(rt.alloc(), &noted)?;
    assert!(rt; report.as_bytes() == b"profile,0\nsolved,whole,0,1,5,7\n".as_slice());
    let other = all_noted(&rt, 18)?;
    settles::<Prime, Noted<Prime, Table>>(&rt, &other, contradiction(0, 2), &[], &[1]);
    Ok(())
}

#[test]
fn pivots_and_notes_make_an_hour_whole(rt: HostRuntime) {
    for (pivots, noted, width, extent) in [
        (2, 0, 2, Extent::Whole),
        (1, 1, 2, Extent::Whole),
        (0, 64, 64, Extent::Whole),
        (1, 0, 2, Extent::Part),
        (2, 1, 2, Extent::Part),
        (1, usize::MAX, 0, Extent::Part),
    ] {
        let count = Count {
            pivots,
            questions: 1,
        };
        assert_eq!(rt; count.extent(noted, width), extent);
    }
}

#[test]
fn faults_are_told(rt: HostRuntime) -> Result<(), Fail> {
    // Minutes of 0 satisfy row 0 and not row 1, which has a weight at minute 1 alone.
    let table = rows_of(&rt, 3, &[(0, &[term(0, 1)]), (3, &[term(1, 1)])])?;
    for (answer, fault) in [
        (None, Fault::Missed(1)),
        (Some(0), Fault::Zero(0)),
        (Some(2), Fault::NoPlace(2)),
    ] {
        fails::<Prime>(&rt, &table, 0, answer, Side::Row, fault);
    }
    for (answer, fault) in [
        (None, Fault::Missed(1)),
        (Some(2), Fault::Zero(2)),
        (Some(3), Fault::NoPlace(3)),
    ] {
        fails::<Octets>(&rt, &table, 1, answer, Side::Column, fault);
    }
    Ok(())
}

#[test]
fn failures_are_written(rt: HostRuntime) -> Result<(), Fail> {
    let outcome = Outcome::Failed(Failure {
        question: 2,
        side: Side::Column,
        fault: Fault::NoPlace(3),
    });
    let text = OutcomeText {
        outcome,
        noted: 0,
        width: 3,
        codes: &[],
    };
    let written = text.to_string(rt.alloc())?;
    assert!(rt; written.as_bytes() == b"failed,2,column,outside,3".as_slice());
    Ok(())
}

// The profile has these rows, which stand at the head of the list, and the rest of the list stays.
fn profiles<F: Field, R: Rows>(rt: &impl Abort, rows: &R, wanted: &[u16]) {
    let mut work = [65535; 8192];
    let mut list = [7; 97];
    assert_eq!(rt;
        profile::<F, R>(rows, &mut work, &mut list),
        Ok(wanted.len())
    );
    holds(rt, &list, wanted, 7);
}

#[test]
fn profiles_name_new_rows(rt: HostRuntime) -> Result<(), Fail> {
    let ones = [term(0, 1), term(1, 1)];
    let twos = [term(0, 2), term(1, 2)];
    let table = rows_of(&rt, 2, &[(9, &ones), (9, &twos), (9, &[term(1, 1)])])?;
    profiles::<Prime, Table>(&rt, &table, &[0, 2]);
    profiles::<Octets, Table>(&rt, &table, &[0, 2]);
    let mut noted = Noted::<Prime, Table>::new(table);
    assert_eq!(rt; noted.note(1, 5), Ok(()));
    profiles::<Prime, Noted<Prime, Table>>(&rt, &noted, &[0]);
    settles::<Prime, Noted<Prime, Table>>(&rt, &noted, contradiction(1, 4), &[], &[65519, 1, 0]);
    Ok(())
}

#[test]
fn a_short_space_is_no_profile(rt: HostRuntime) -> Result<(), Fail> {
    let table = rows_of(&rt, 2, &[(5, &[term(0, 1)])])?;
    let mut work = [5; 8192];
    let mut list = [7; 96];
    for (words, places) in [(8191, 96), (8192, 95)] {
        assert_eq!(rt;
            profile::<Prime, Table>(&table, &mut work[..words], &mut list[..places]),
            Err(Refusal::SpaceTooShort)
        );
    }
    holds(&rt, &work, &[], 5);
    holds(&rt, &list, &[], 7);
    Ok(())
}

#[test]
fn a_short_space_settles_nothing(rt: HostRuntime) -> Result<(), Fail> {
    let table = rows_of(&rt, 2, &[(5, &[term(0, 1)])])?;
    let mut faulty = FaultyScout {
        true_answers: 3,
        answer: None,
    };
    let mut work = [5; 8192];
    let mut findings = used_record();
    assert_eq!(rt;
        settle::<Prime, Table, FaultyScout>(&table, &mut faulty, &mut work[..8191], &mut findings),
        Err(Refusal::SpaceTooShort)
    );
    assert_eq!(rt; faulty.true_answers, 3);
    holds(&rt, &work, &[], 5);
    holds(&rt, &findings.minutes, &[], 9);
    holds(&rt, &findings.blame, &[], 8);
    assert_eq!(rt;
        settle::<Prime, Table, Scan>(&table, &mut Scan, &mut work, &mut findings),
        solved(1, 3)
    );
    Ok(())
}
