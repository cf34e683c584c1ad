//! What a block refuses, in which order and at which place; a refused call changes nothing.
use crate::fixtures::{
    FaultyScout, cap, disputed, holds, hour, look, settles, shows, solved, take, takes, term,
};
use field::fields::Field;
use field::octets::Octets;
use field::primes::Prime;
use frame::refusals::Refusal;
use frame::terms::Term;
use receiver::blocks::Block;
use receiver::stages::Stage;
use rows::caps::Cap;
use rows::ledgers::Ledger;
use rows::tables::Table;
use solver::outcomes::Extent;
use std::process::Abort;
use std::test::Fail;

// The block refuses these notes, and stays as it is.
fn refuses_notes<F: Field, L: Ledger>(
    rt: &impl Abort,
    block: &mut Block<F, L>,
    calls: &[(usize, u16, Refusal)],
) {
    let before = look(block);
    for (minute, code, refusal) in calls {
        assert_eq!(rt; block.note(*minute, *code), Err(*refusal));
        assert!(rt; look(block) == before);
    }
}

fn notes_are_refused<F: Field>(rt: &impl Abort) -> Result<(), Fail> {
    let mut block = hour::<F>(rt, 4)?;
    assert_eq!(rt; block.note(0, 5), Ok(()));
    let calls = &[
        (2, F::Q, Refusal::MinuteBeyondWidth(0)),
        (usize::MAX, 0, Refusal::MinuteBeyondWidth(0)),
        (0, F::Q, Refusal::NoCode(0)),
        (1, 65535, Refusal::NoCode(0)),
        (0, 5, Refusal::MinuteNoted),
    ];
    refuses_notes(rt, &mut block, calls);
    settles(rt, &mut block, solved(Extent::Whole, 1, 3));
    refuses_notes(rt, &mut block, calls);
    shows(rt, &block, Stage::Settled, &[5, 1], &[]);
    let mut block = disputed::<F>(rt, 4)?;
    let calls = &[(1, 0, Refusal::Disputed), (2, F::Q, Refusal::Disputed)];
    refuses_notes(rt, &mut block, calls);
    Ok(())
}

#[test]
fn notes_are_refused_in_order(rt: HostRuntime) -> Result<(), Fail> {
    notes_are_refused::<Prime>(&rt)?;
    notes_are_refused::<Octets>(&rt)
}

// The block refuses these frames, and stays as it is.
fn refuses_frames<F: Field, L: Ledger>(
    rt: &impl Abort,
    block: &mut Block<F, L>,
    calls: &[(u16, &[Term], Refusal)],
) {
    let before = look(block);
    for (sum, terms, refusal) in calls {
        assert_eq!(rt; take(block, *sum, terms), Err(*refusal));
        assert!(rt; look(block) == before);
    }
}

fn frames_are_refused<F: Field>(rt: &impl Abort) -> Result<(), Fail> {
    let q = F::Q;
    let calls: &[(u16, &[Term], Refusal)] = &[
        (
            q,
            &[term(0, q), term(2, q), term(3, 1)],
            Refusal::MinuteBeyondWidth(1),
        ),
        (0, &[term(63, 1)], Refusal::MinuteBeyondWidth(0)),
        (q, &[term(0, q), term(1, 65535)], Refusal::NoCode(0)),
        (q, &[term(0, 255), term(1, q)], Refusal::NoCode(1)),
        (q, &[term(0, 1), term(1, 1)], Refusal::NoCode(2)),
        (65535, &[term(0, 1)], Refusal::NoCode(1)),
        (0, &[term(1, 1)], Refusal::LedgerFull),
    ];
    let mut block: Block<F, Cap<Table>> = Block::new(4, cap(1, 2)?);
    takes(rt, &mut block, 0, &[(9, &[term(0, 1)])]);
    refuses_frames(rt, &mut block, calls);
    settles(rt, &mut block, solved(Extent::Part, 1, 3));
    refuses_frames(rt, &mut block, calls);
    shows(rt, &block, Stage::Settled, &[9, 0], &[]);
    let mut block = disputed::<F>(rt, 4)?;
    let calls: &[(u16, &[Term], Refusal)] = &[
        (1, &[term(0, 1)], Refusal::Disputed),
        (q, &[term(2, q)], Refusal::Disputed),
    ];
    refuses_frames(rt, &mut block, calls);
    Ok(())
}

#[test]
fn frames_are_refused_in_order(rt: HostRuntime) -> Result<(), Fail> {
    frames_are_refused::<Prime>(&rt)?;
    frames_are_refused::<Octets>(&rt)?;
    let mut terms = [term(0, 255); 16];
    for (term, minute) in terms.iter_mut().zip(48..64) {
        term.minute = minute;
    }
    let mut block = crate::fixtures::block::<Octets>(0, 64)?;
    refuses_frames(&rt, &mut block, &[(256, &terms, Refusal::NoCode(16))]);
    takes(&rt, &mut block, 0, &[(255, &terms)]);
    Ok(())
}

// The block settles in no work space as short as these, and it, the scout and the words stay as they
// are.
fn refuses_settles<F: Field, L: Ledger>(
    rt: &impl Abort,
    block: &mut Block<F, L>,
    calls: &[(usize, Refusal)],
) {
    let before = look(block);
    let mut work = [5; 8192];
    for (words, refusal) in calls {
        let mut scout = FaultyScout {
            true_answers: 3,
            answer: None,
        };
        let lent = work.get_mut(..*words).unwrap_or(&mut []);
        assert_eq!(rt; block.settle(&mut scout, lent), Err(*refusal));
        assert_eq!(rt; scout.true_answers, 3);
        holds(rt, &work, &[], 5);
        assert!(rt; look(block) == before);
    }
}

fn settles_are_refused<F: Field>(rt: &impl Abort) -> Result<(), Fail> {
    let mut block = hour::<F>(rt, 4)?;
    let calls = &[(8191, Refusal::SpaceTooShort), (0, Refusal::SpaceTooShort)];
    refuses_settles(rt, &mut block, calls);
    settles(rt, &mut block, solved(Extent::Whole, 2, 5));
    refuses_settles(rt, &mut block, calls);
    let mut block = disputed::<F>(rt, 4)?;
    let calls = &[(8192, Refusal::Disputed), (8191, Refusal::Disputed)];
    refuses_settles(rt, &mut block, calls);
    let before = look(&block);
    assert_eq!(rt; block.clear(), Err(Refusal::Disputed));
    assert!(rt; look(&block) == before);
    Ok(())
}

#[test]
fn settles_are_refused_in_order(rt: HostRuntime) -> Result<(), Fail> {
    settles_are_refused::<Prime>(&rt)?;
    settles_are_refused::<Octets>(&rt)
}
