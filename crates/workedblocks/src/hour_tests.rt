//! Hours: their widths, their notes, their ledgers and their profiles.
use crate::fixtures::{
    block, cap, contradiction, holds, hour, look, notes, settles, shows, solved, table, take,
    takes, term,
};
use field::fields::Field;
use field::octets::Octets;
use field::primes::Prime;
use frame::refusals::Refusal;
use frame::terms::Term;
use receiver::blocks::Block;
use receiver::settlements::Settlement;
use receiver::stages::Stage;
use rows::ledgers::Ledger;
use rows::reading::Rows;
use solver::outcomes::Extent;
use solver::scouts::Scan;
use std::process::Abort;
use std::test::Fail;

// A block over a ledger has no rows at first, takes `most` of them, refuses one more, and gives the
// ledger back.
fn fills<L: Ledger + Drop>(rt: &impl Abort, ledger: L, most: usize) -> L {
    let mut block = Block::<Octets, L>::new(9, ledger);
    assert_eq!(rt; block.ledger().row_count(), 0);
    assert_eq!(rt; block.ledger().limit(), most);
    for row in 0..most {
        assert_eq!(rt; take(&mut block, 7, &[term(0, 1)]), Ok(row));
    }
    assert_eq!(rt;
        take(&mut block, 7, &[term(0, 1)]),
        Err(Refusal::LedgerFull)
    );
    settles(rt, &mut block, solved(Extent::Whole, 1, 3));
    shows(rt, &block, Stage::Settled, &[7], &[]);
    let ledger = block.into_ledger();
    assert_eq!(rt; ledger.row_count(), most);
    ledger
}

#[test]
fn a_block_fills_its_ledger_and_gives_it_back(rt: HostRuntime) -> Result<(), Fail> {
    let twice = fills(&rt, fills(&rt, table(1)?, 96), 96);
    assert_eq!(rt; twice.sum(95), Some(7));
    let capped = fills(&rt, fills(&rt, cap(1, 1)?, 1), 1);
    assert_eq!(rt; capped.into_below().sum(0), Some(7));
    Ok(())
}

// Minute 0 is noted as 1 and minute 63 as `last`. The sums wanted are those of minutes 0, 5 and 63,
// 1, 2 and 3 times, where minute 5 is 7, and of minutes 0 and 63.
fn ends_are_noted<F: Field>(rt: &impl Abort, last: u16, sums: [u16; 2]) -> Result<(), Fail> {
    let mut block = block::<F>(0, 64)?;
    notes(rt, &mut block, 0, &[1]);
    notes(rt, &mut block, 63, &[last]);
    takes(
        rt,
        &mut block,
        0,
        &[
            (sums[0], &[term(0, 1), term(5, 2), term(63, 3)]),
            (sums[1], &[term(0, 1), term(63, 1)]),
        ],
    );
    assert_eq!(rt; block.rows().sum(0), Some(14));
    assert_eq!(rt; block.rows().term_count(1), Some(0));
    settles(rt, &mut block, solved(Extent::Part, 1, 3));
    let mut minutes = [0; 64];
    for (minute, code) in [(0, 1), (5, 7), (63, last)] {
        minutes[minute] = code;
    }
    shows(rt, &block, Stage::Settled, &minutes, &[]);
    Ok(())
}

// Modulo 65521, 65520 is −1. In the octets 3 · 255 is 28, and 1, 14 and 28 add up to 19.
#[test]
fn both_ends_of_an_hour_are_noted(rt: HostRuntime) -> Result<(), Fail> {
    ends_are_noted::<Prime>(&rt, 65520, [12, 0])?;
    ends_are_noted::<Octets>(&rt, 255, [19, 254])
}

// An hour without a frame: nothing is noted, and then all minutes are.
fn notes_alone<F: Field>(rt: &impl Abort, codes: &[u16]) -> Result<(), Fail> {
    let mut block = block::<F>(0, codes.len())?;
    assert_eq!(rt; block.width(), codes.len());
    settles(rt, &mut block, solved(Extent::Part, 0, 1));
    notes(rt, &mut block, 0, codes);
    assert_eq!(rt; block.noted_count(), codes.len());
    for (minute, code) in codes.iter().enumerate() {
        assert_eq!(rt; block.noted_code(minute), Some(*code));
    }
    settles(rt, &mut block, solved(Extent::Whole, 0, 1));
    shows(rt, &block, Stage::Settled, codes, &[]);
    Ok(())
}

#[test]
fn an_hour_may_be_all_notes(rt: HostRuntime) -> Result<(), Fail> {
    let mut codes = [0; 64];
    for (place, code) in codes.iter_mut().zip(190..254) {
        *place = code;
    }
    for minutes in [[5].as_slice(), [0, 255, 1].as_slice(), codes.as_slice()] {
        notes_alone::<Prime>(&rt, minutes)?;
        notes_alone::<Octets>(&rt, minutes)?;
    }
    Ok(())
}

// An hour of three minutes, of which some are noted, with the frame that twice minute 0 and three
// times minute 1 make 20: how it settles, and what it shows and blames.
fn notes_leave(
    rt: &impl Abort,
    noted: &[(usize, u16)],
    settlement: Settlement,
    minutes: &[u16],
    blame: &[u16],
) -> Result<(), Fail> {
    let mut block = block::<Prime>(0, 3)?;
    takes(rt, &mut block, 0, &[(20, &[term(0, 2), term(1, 3)])]);
    for (minute, code) in noted {
        notes(rt, &mut block, *minute, &[*code]);
    }
    settles(rt, &mut block, settlement);
    let stage = if blame.is_empty() {
        Stage::Settled
    } else {
        Stage::Disputed
    };
    shows(rt, &block, stage, minutes, blame);
    Ok(())
}

#[test]
fn notes_leave_a_part_or_the_whole(rt: HostRuntime) -> Result<(), Fail> {
    let part = solved(Extent::Part, 1, 3);
    let whole = solved(Extent::Whole, 1, 3);
    notes_leave(&rt, &[], part, &[10, 0, 0], &[])?;
    notes_leave(&rt, &[(1, 4)], part, &[4, 4, 0], &[])?;
    notes_leave(&rt, &[(2, 9), (1, 4)], whole, &[4, 4, 9], &[])?;
    let all = [(2, 9), (1, 4), (0, 4)];
    notes_leave(&rt, &all, solved(Extent::Whole, 0, 1), &[4, 4, 9], &[])?;
    notes_leave(&rt, &[(0, 5), (1, 4)], contradiction(0, 2), &[], &[1])
}

// The profile of the block's rows is this list, and neither a short work space nor a short list
// gives one.
fn profiles<F: Field, L: Ledger>(rt: &impl Abort, block: &Block<F, L>, wanted: &[u16]) {
    let before = look(block);
    let mut work = [65535; 8192];
    let mut list = [7; 97];
    for (words, places) in [(8191, 96), (8192, 95), (0, 97), (8192, 0)] {
        assert_eq!(rt;
            block.profile(&mut work[..words], &mut list[..places]),
            Err(Refusal::SpaceTooShort)
        );
        holds(rt, &work, &[], 65535);
        holds(rt, &list, &[], 7);
    }
    assert_eq!(rt; block.profile(&mut work, &mut list), Ok(wanted.len()));
    holds(rt, &list, wanted, 7);
    assert!(rt; look(block) == before);
}

// The rows (1, 1), (2, 2) and (0, 1). With 3 and 1 for the sums of the first and the last, 6 is the
// sum of the second.
fn profiles_in_every_stage<F: Field>(rt: &impl Abort, sum: u16, stage: Stage) -> Result<(), Fail> {
    let mut block = block::<F>(0, 2)?;
    let frames: &[(u16, &[Term])] = &[
        (3, &[term(0, 1), term(1, 1)]),
        (sum, &[term(0, 2), term(1, 2)]),
        (1, &[term(1, 1)]),
    ];
    takes(rt, &mut block, 0, frames);
    profiles(rt, &block, &[0, 2]);
    let mut work = [0; 8192];
    assert!(rt; block.settle(&mut Scan, &mut work).is_ok());
    assert_eq!(rt; block.stage(), stage);
    profiles(rt, &block, &[0, 2]);
    Ok(())
}

#[test]
fn a_block_has_a_profile(rt: HostRuntime) -> Result<(), Fail> {
    for (sum, stage) in [(6, Stage::Settled), (7, Stage::Disputed)] {
        profiles_in_every_stage::<Prime>(&rt, sum, stage)?;
        profiles_in_every_stage::<Octets>(&rt, sum, stage)?;
    }
    let mut block = hour::<Prime>(&rt, 0)?;
    notes(&rt, &mut block, 1, &[1]);
    profiles(&rt, &block, &[1]);
    Ok(())
}
