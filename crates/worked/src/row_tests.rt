//! Worked examples of rows, ledgers and notes.
use crate::tests::term;
use field::fields::Field;
use field::octets::Octets;
use field::primes::Prime;
use frame::frames::Frame;
use frame::refusals::Refusal;
use frame::terms::Term;
use notes::layers::Noted;
use rows::caps::{Cap, take_under_caps};
use rows::ledgers::Ledger;
use rows::reading::Rows;
use rows::sizes::{Limit, Width};
use rows::tables::Table;
use rows::values::{entry, row_value};
use std::process::Abort;
use std::test::Fail;

pub(crate) fn table(width: usize) -> Result<Table, Fail> {
    Ok(Table::new(Width::try_from(width).ok().ok_or("width")?))
}

fn cap<L: Ledger + Drop>(number: usize, below: L) -> Result<Cap<L>, Fail> {
    Ok(Cap::new(Limit::try_from(number).ok().ok_or("limit")?, below))
}

// Takes the frame of these terms.
pub(crate) fn take<L: Ledger>(ledger: &mut L, sum: u16, terms: &[Term]) -> Result<usize, Refusal> {
    ledger.take(&Frame::check(sum, terms)?)
}

// A row reads as this sum and these terms, and nothing behind them.
fn reads<R: Rows>(rt: &impl Abort, rows: &R, row: usize, sum: u16, terms: &[Term]) {
    assert_eq!(rt; rows.sum(row), Some(sum));
    assert_eq!(rt; rows.term_count(row), Some(terms.len()));
    for number in 0..terms.len() + 1 {
        assert_eq!(rt; rows.term(row, number), terms.get(number).copied());
    }
}

// The ledger takes `most` rows and refuses one more.
fn fills<L: Ledger + Drop>(rt: &impl Abort, mut ledger: L, most: usize) {
    assert_eq!(rt; ledger.limit(), most);
    for row in 0..most {
        assert_eq!(rt; take(&mut ledger, 7, &[term(0, 1)]), Ok(row));
    }
    let full = take(&mut ledger, 7, &[term(0, 1)]);
    assert_eq!(rt; full, Err(Refusal::LedgerFull));
    let beyond = take(&mut ledger, 7, &[term(0, 1), term(1, 1)]);
    assert_eq!(rt; beyond, Err(Refusal::MinuteBeyondWidth(1)));
    assert_eq!(rt; ledger.row_count(), most);
    reads(rt, &ledger, most.saturating_sub(1), 7, &[term(0, 1)]);
}

#[test]
fn ledgers_fill(rt: HostRuntime) -> Result<(), Fail> {
    fills(&rt, table(1)?, 96);
    fills(&rt, cap(96, table(1)?)?, 96);
    fills(&rt, cap(1, table(1)?)?, 1);
    fills(&rt, cap(5, cap(3, table(1)?)?)?, 3);
    fills(&rt, cap(3, cap(5, table(1)?)?)?, 3);
    let mut caps = cap(3, cap(1, table(64)?)?)?;
    let terms = [term(63, 1)];
    let frame = Frame::check(7, &terms).ok().ok_or("frame")?;
    for answer in [Ok(0), Err(Refusal::LedgerFull)] {
        assert_eq!(rt; take_under_caps(&mut caps, &frame), answer);
    }
    reads(&rt, caps.below(), 0, 7, &terms);
    assert_eq!(rt; caps.into_below().into_below().width(), 64);
    Ok(())
}

#[test]
fn sizes_are_checked(rt: HostRuntime) {
    for (number, width, limit) in [
        (0, false, false),
        (1, true, true),
        (64, true, true),
        (65, false, true),
        (96, false, true),
        (97, false, false),
    ] {
        assert_eq!(rt; Width::try_from(number).is_ok(), width);
        assert_eq!(rt; Limit::try_from(number).is_ok(), limit);
    }
}

#[test]
fn a_struck_row_is_empty(rt: HostRuntime) -> Result<(), Fail> {
    let mut ledger = cap(96, table(64)?)?;
    for (row, minute) in [0, 63, 62].into_iter().enumerate() {
        assert_eq!(rt; take(&mut ledger, 5, &[term(minute, 9)]), Ok(row));
    }
    assert_eq!(rt; ledger.strike(3), Err(Refusal::NoSuchRow));
    reads(&rt, &ledger, 1, 5, &[term(63, 9)]);
    assert_eq!(rt; ledger.strike(1), Ok(()));
    reads(&rt, &ledger, 1, 0, &[]);
    reads(&rt, &ledger, 2, 5, &[term(62, 9)]);
    ledger.clear();
    assert_eq!(rt; take(&mut ledger, 5, &[term(0, 1)]), Ok(0));
    Ok(())
}

// Three rows over 64 minutes, the minutes at both ends noted.
fn noted_rows<F: Field>(rt: &impl Abort) -> Result<Noted<F, Table>, Fail> {
    let mut ledger = table(64)?;
    for (sum, minute) in [(12, 5), (1, 62), (65535, 1)] {
        let taken = take(
            &mut ledger,
            sum,
            &[term(0, 2), term(minute, 3), term(63, 4)],
        );
        assert!(rt; taken.is_ok());
    }
    let mut noted = Noted::new(ledger);
    for (minute, code, answer) in [
        (64, F::Q, Err(Refusal::MinuteBeyondWidth(0))),
        (0, F::Q, Err(Refusal::NoCode(0))),
        (0, 1, Ok(())),
        (63, 2, Ok(())),
        (63, F::Q, Err(Refusal::NoCode(0))),
        (63, 3, Err(Refusal::MinuteNoted)),
    ] {
        assert_eq!(rt; noted.note(minute, code), answer);
    }
    Ok(noted)
}

// The values wanted: the sums under the notes. These take 2 · 1 + 4 · 2 off each, which is 10 in
// both fields; 65535 is 14 modulo 65521, and 255 in the octets.
fn notes_work<F: Field>(rt: &impl Abort, sums: [u16; 3]) -> Result<(), Fail> {
    let noted: Noted<F, Table> = noted_rows(rt)?;
    assert_eq!(rt; noted.noted_count(), 2);
    for (minute, code) in [(0, Some(1)), (62, None), (63, Some(2)), (64, None)] {
        assert_eq!(rt; noted.noted_code(minute), code);
    }
    reads(rt, &noted, 0, sums[0], &[term(5, 3)]);
    reads(rt, &noted, 1, sums[1], &[term(62, 3)]);
    reads(rt, &noted, 2, sums[2], &[term(1, 3)]);
    let mut x = [9; 64];
    noted.put_in(&mut x);
    for (minute, code) in [(0, 1), (1, 9), (62, 9), (63, 2)] {
        assert_eq!(rt; x[minute], code);
    }
    Ok(())
}

#[test]
fn notes_work_in_both_fields(rt: HostRuntime) -> Result<(), Fail> {
    notes_work::<Prime>(&rt, [2, 65512, 4])?;
    notes_work::<Octets>(&rt, [6, 11, 245])
}

#[test]
fn notes_stand_over_notes(rt: HostRuntime) -> Result<(), Fail> {
    let mut upper: Noted<Prime, Noted<Prime, Table>> = Noted::new(noted_rows(&rt)?);
    assert_eq!(rt; upper.note(5, 65520), Ok(()));
    reads(&rt, &upper, 0, 5, &[]);
    reads(&rt, upper.below(), 0, 2, &[term(5, 3)]);
    Ok(())
}

#[test]
fn a_ledger_under_notes(rt: HostRuntime) -> Result<(), Fail> {
    let mut noted: Noted<Prime, Cap<Table>> = Noted::new(cap(2, table(2)?)?);
    assert_eq!(rt; noted.note(1, 7), Ok(()));
    let terms = [term(0, 2), term(1, 1)];
    let frame = Frame::check(18, &terms).ok().ok_or("frame")?;
    for answer in [Ok(0), Ok(1), Err(Refusal::LedgerFull)] {
        assert_eq!(rt; noted.take(&frame), answer);
    }
    assert_eq!(rt; noted.strike(0), Ok(()));
    reads(&rt, &noted, 0, 0, &[]);
    reads(&rt, &noted, 1, 11, &[term(0, 2)]);
    noted.clear_notes();
    reads(&rt, &noted, 1, 18, &terms);
    noted.clear_rows();
    assert_eq!(rt; noted.row_count(), 0);
    assert_eq!(rt; noted.into_below().limit(), 2);
    Ok(())
}

// The value wanted: what is left of 18 at the choice (5, 7).
fn values_work<F: Field>(rt: &impl Abort, left: u16) -> Result<(), Fail> {
    let mut rows = table(3)?;
    assert_eq!(rt; take(&mut rows, 18, &[term(0, 2), term(1, 1)]), Ok(0));
    for (minute, weight) in [(0, Some(2)), (1, Some(1)), (2, Some(0)), (3, None)] {
        assert_eq!(rt; entry::<F, Table>(&rows, 0, minute), weight);
    }
    let x: &[u16] = &[5, 7];
    assert_eq!(rt; row_value::<F, Table, &[u16]>(&rows, 0, &x), Some(left));
    Ok(())
}

#[test]
fn values_work_in_both_fields(rt: HostRuntime) -> Result<(), Fail> {
    values_work::<Prime>(&rt, 1)?;
    values_work::<Octets>(&rt, 31)
}
