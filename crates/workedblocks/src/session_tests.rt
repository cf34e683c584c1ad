//! Sessions, call by call.
use crate::fixtures::{
    FaultyScout, accepted, block, contradiction, hour, settles, shows, slip_of, solved, take,
    takes, term,
};
use field::fields::Field;
use field::octets::Octets;
use field::primes::Prime;
use frame::refusals::Refusal;
use receiver::blocks::Block;
use receiver::settlements::{Settlement, answers_are_told_apart};
use receiver::stages::Stage;
use rows::ledgers::Ledger;
use rows::tables::Table;
use solver::faults::Fault;
use solver::outcomes::{Extent, Failure};
use solver::questions::Side;
use std::process::Abort;
use std::test::Fail;

// A scout that answers falsely after so many true answers fails the settle, which asks it no more
// and leaves the block gathering.
fn fails<F: Field, L: Ledger>(
    rt: &impl Abort,
    block: &mut Block<F, L>,
    true_answers: usize,
    answer: Option<usize>,
    side: Side,
    fault: Fault,
) {
    let mut scout = FaultyScout {
        true_answers,
        answer,
    };
    let failure = Failure {
        question: true_answers.saturating_add(1),
        side,
        fault,
    };
    let mut work = [0; 8192];
    assert_eq!(rt;
        block.settle(&mut scout, &mut work),
        Ok(Settlement::Failed(failure))
    );
    assert_eq!(rt; scout.true_answers, 0);
    shows(rt, block, Stage::Gathering, &[], &[]);
}

#[test]
fn a_session_in_the_integers(rt: HostRuntime) -> Result<(), Fail> {
    let mut block = block::<Prime>(0, 2)?;
    takes(
        &rt,
        &mut block,
        0,
        &[(5, &[term(0, 1)]), (12, &[term(0, 1), term(1, 1)])],
    );
    settles(&rt, &mut block, solved(Extent::Whole, 2, 5));
    shows(&rt, &block, Stage::Settled, &[5, 7], &[]);
    takes(&rt, &mut block, 2, &[(18, &[term(0, 2), term(1, 1)])]);
    shows(&rt, &block, Stage::Gathering, &[], &[]);
    settles(&rt, &mut block, contradiction(2, 6));
    shows(&rt, &block, Stage::Disputed, &[], &[65520, 65520, 1]);
    assert_eq!(rt; take(&mut block, 1, &[term(0, 1)]), Err(Refusal::Disputed));
    let slip = slip_of(&rt, &mut block);
    accepted(&rt, block.strike(slip, 2));
    shows(&rt, &block, Stage::Gathering, &[], &[]);
    settles(&rt, &mut block, solved(Extent::Whole, 2, 5));
    shows(&rt, &block, Stage::Settled, &[5, 7], &[]);
    assert_eq!(rt; block.clear(), Ok(()));
    shows(&rt, &block, Stage::Gathering, &[], &[]);
    takes(
        &rt,
        &mut block,
        0,
        &[(1, &[term(0, 1)]), (65520, &[term(1, 1)])],
    );
    fails(&rt, &mut block, 0, None, Side::Row, Fault::Missed(0));
    Ok(())
}

// 2 · 128 is 29 here, 142 is the inverse of 2, and 128 plus 3 is 131. With 4 for minute 1 the last
// row is 142 times the first plus the second, but for its sum.
#[test]
fn a_session_in_the_octets(rt: HostRuntime) -> Result<(), Fail> {
    let mut block = block::<Octets>(65535, 2)?;
    takes(
        &rt,
        &mut block,
        0,
        &[(29, &[term(0, 2)]), (131, &[term(0, 1), term(1, 1)])],
    );
    settles(&rt, &mut block, solved(Extent::Whole, 2, 5));
    shows(&rt, &block, Stage::Settled, &[128, 3], &[]);
    takes(&rt, &mut block, 2, &[(4, &[term(1, 1)])]);
    settles(&rt, &mut block, contradiction(2, 6));
    shows(&rt, &block, Stage::Disputed, &[], &[142, 1, 1]);
    let slip = slip_of(&rt, &mut block);
    assert_eq!(rt; slip.name(), 65535);
    accepted(&rt, block.strike(slip, 0));
    settles(&rt, &mut block, solved(Extent::Whole, 2, 5));
    shows(&rt, &block, Stage::Settled, &[135, 4], &[]);
    Ok(())
}

// The rows are that minute 1 is 1 and minute 0 is 5: row 0 has a weight at minute 1 alone.
fn faults_fail<F: Field>(rt: &impl Abort, mut block: Block<F, Table>) {
    for (true_answers, answer, side, fault) in [
        (0, None, Side::Row, Fault::Missed(0)),
        (0, Some(2), Side::Row, Fault::NoPlace(2)),
        (1, None, Side::Column, Fault::Missed(1)),
        (1, Some(0), Side::Column, Fault::Zero(0)),
        (2, Some(0), Side::Row, Fault::Zero(0)),
        (3, Some(2), Side::Column, Fault::NoPlace(2)),
        (4, Some(1), Side::Row, Fault::Zero(1)),
    ] {
        settles(rt, &mut block, solved(Extent::Whole, 2, 5));
        shows(rt, &block, Stage::Settled, &[5, 1], &[]);
        fails(rt, &mut block, true_answers, answer, side, fault);
    }
}

#[test]
fn a_false_answer_fails_a_settle(rt: HostRuntime) -> Result<(), Fail> {
    answers_are_told_apart();
    faults_fail(&rt, hour::<Prime>(&rt, 1)?);
    faults_fail(&rt, hour::<Octets>(&rt, 1)?);
    Ok(())
}
