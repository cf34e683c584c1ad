//! Slips: who takes one, and what it does.
use crate::fixtures::{
    accepted, contradiction, disputed, handed_back, hour, look, notes, settles, shows, slip_of,
    solved, takes, term,
};
use field::fields::Field;
use field::octets::Octets;
use field::primes::Prime;
use frame::refusals::Refusal;
use receiver::blocks::Block;
use receiver::slips::Slip;
use receiver::stages::Stage;
use rows::ledgers::Ledger;
use rows::reading::Rows;
use solver::outcomes::Extent;
use std::process::Abort;
use std::test::Fail;

// The block hands out no slip, and stays as it is.
fn refuses_slip<F: Field, L: Ledger>(rt: &impl Abort, block: &mut Block<F, L>) {
    let before = look(block);
    match block.slip() {
        Ok(_slip) => panic!(rt; "a slip is handed out"),
        Err(refusal) => assert_eq!(rt; refusal, Refusal::NoSlipToGive),
    }
    assert!(rt; look(block) == before);
}

// No call takes the slip; the block stays as it is, and the slip comes back.
fn refuses_with<F: Field, L: Ledger>(rt: &impl Abort, block: &mut Block<F, L>, slip: Slip) -> Slip {
    let before = look(block);
    let name = slip.name();
    let slip = handed_back(rt, block.strike(slip, 2), Refusal::WrongSlip);
    let slip = handed_back(rt, block.strike(slip, 96), Refusal::WrongSlip);
    let slip = handed_back(rt, block.give_back(slip), Refusal::WrongSlip);
    let slip = handed_back(rt, block.abandon(slip), Refusal::WrongSlip);
    assert_eq!(rt; slip.name(), name);
    assert!(rt; look(block) == before);
    slip
}

#[test]
fn a_block_without_a_dispute_has_no_slip(rt: HostRuntime) -> Result<(), Fail> {
    let mut block = hour::<Prime>(&rt, 8)?;
    let mut other = disputed::<Prime>(&rt, 8)?;
    refuses_slip(&rt, &mut block);
    let slip = slip_of(&rt, &mut other);
    let slip = refuses_with(&rt, &mut block, slip);
    settles(&rt, &mut block, solved(Extent::Whole, 2, 5));
    refuses_slip(&rt, &mut block);
    let slip = refuses_with(&rt, &mut block, slip);
    accepted(&rt, other.strike(slip, 2));
    refuses_slip(&rt, &mut other);
    Ok(())
}

// Only row 0 of the three is not blamed.
#[test]
fn a_slip_strikes_a_blamed_row(rt: HostRuntime) -> Result<(), Fail> {
    for (row, minutes) in [(1, [6, 1]), (2, [5, 1])] {
        let mut block = disputed::<Octets>(&rt, 8)?;
        let mut slip = slip_of(&rt, &mut block);
        refuses_slip(&rt, &mut block);
        let before = look(&block);
        for unblamed in [0, 3, 96, usize::MAX] {
            slip = handed_back(&rt, block.strike(slip, unblamed), Refusal::NoSuchRow);
            assert!(rt; look(&block) == before);
        }
        accepted(&rt, block.strike(slip, row));
        shows(&rt, &block, Stage::Gathering, &[], &[]);
        assert_eq!(rt; block.ledger().row_count(), 3);
        assert_eq!(rt; block.ledger().term_count(row), Some(0));
        settles(&rt, &mut block, solved(Extent::Whole, 2, 5));
        shows(&rt, &block, Stage::Settled, &minutes, &[]);
    }
    Ok(())
}

// A slip knows its block by the name alone: the block's twin has the same.
#[test]
fn a_slip_is_known_by_its_name(rt: HostRuntime) -> Result<(), Fail> {
    let mut block = disputed::<Prime>(&rt, 8)?;
    let mut twin = disputed::<Octets>(&rt, 8)?;
    let mut other = disputed::<Prime>(&rt, 9)?;
    let other_slip = slip_of(&rt, &mut other);
    let other_slip = refuses_with(&rt, &mut block, other_slip);
    let own_slip = slip_of(&rt, &mut block);
    let other_slip = refuses_with(&rt, &mut block, other_slip);
    accepted(&rt, other.abandon(other_slip));
    let own_slip = refuses_with(&rt, &mut twin, own_slip);
    let twin_slip = slip_of(&rt, &mut twin);
    accepted(&rt, block.strike(twin_slip, 1));
    accepted(&rt, twin.give_back(own_slip));
    shows(&rt, &twin, Stage::Disputed, &[], &[0, 1, 1]);
    Ok(())
}

// Minute 0 is noted as 6, and row 1 says that it is 5. A slip is given back before one abandons.
#[test]
fn a_dispute_is_abandoned(rt: HostRuntime) -> Result<(), Fail> {
    let mut block = hour::<Prime>(&rt, 8)?;
    notes(&rt, &mut block, 0, &[6]);
    settles(&rt, &mut block, contradiction(1, 4));
    shows(&rt, &block, Stage::Disputed, &[], &[0, 1]);
    let before = look(&block);
    for _ in 0..2 {
        let slip = slip_of(&rt, &mut block);
        refuses_slip(&rt, &mut block);
        assert_eq!(rt; block.clear(), Err(Refusal::Disputed));
        accepted(&rt, block.give_back(slip));
        assert!(rt; look(&block) == before);
    }
    let slip = slip_of(&rt, &mut block);
    accepted(&rt, block.abandon(slip));
    shows(&rt, &block, Stage::Gathering, &[], &[]);
    assert_eq!(rt; block.noted_count(), 0);
    assert_eq!(rt; block.ledger().row_count(), 0);
    takes(&rt, &mut block, 0, &[(6, &[term(0, 1)])]);
    settles(&rt, &mut block, solved(Extent::Part, 1, 3));
    shows(&rt, &block, Stage::Settled, &[6, 0], &[]);
    Ok(())
}
