//! What the tests share: blocks, and what is looked at in one.
use field::fields::Field;
use frame::frames::Frame;
use frame::refusals::Refusal;
use frame::terms::Term;
use receiver::blocks::Block;
use receiver::settlements::Settlement;
use receiver::slips::{Slip, Unspent};
use receiver::stages::Stage;
use rows::caps::Cap;
use rows::ledgers::Ledger;
use rows::reading::Rows;
use rows::sizes::{Limit, Width};
use rows::tables::Table;
use solver::outcomes::{Count, Extent};
use solver::questions::Question;
use solver::scouts::{Scan, Scout};
use std::process::Abort;
use std::test::Fail;

pub(crate) fn term(minute: u16, weight: u16) -> Term {
    Term { minute, weight }
}

pub(crate) fn table(width: usize) -> Result<Table, Fail> {
    Ok(Table::new(Width::try_from(width).ok().ok_or("width")?))
}

pub(crate) fn cap(number: usize, width: usize) -> Result<Cap<Table>, Fail> {
    let limit = Limit::try_from(number).ok().ok_or("limit")?;
    Ok(Cap::new(limit, table(width)?))
}

// A block over a new table.
pub(crate) fn block<F: Field>(name: u16, width: usize) -> Result<Block<F, Table>, Fail> {
    Ok(Block::new(name, table(width)?))
}

// Takes the frame of these terms.
pub(crate) fn take<F: Field, L: Ledger>(
    block: &mut Block<F, L>,
    sum: u16,
    terms: &[Term],
) -> Result<usize, Refusal> {
    block.take(&Frame::check(sum, terms)?)
}

// Takes frames, as the rows from this one on.
pub(crate) fn takes<F: Field, L: Ledger>(
    rt: &impl Abort,
    block: &mut Block<F, L>,
    from: usize,
    frames: &[(u16, &[Term])],
) {
    for (place, (sum, terms)) in frames.iter().enumerate() {
        assert_eq!(rt; take(block, *sum, terms), Ok(from.saturating_add(place)));
    }
}

// Notes codes for the minutes from this one on.
pub(crate) fn notes<F: Field, L: Ledger>(
    rt: &impl Abort,
    block: &mut Block<F, L>,
    from: usize,
    codes: &[u16],
) {
    for (place, code) in codes.iter().enumerate() {
        assert_eq!(rt; block.note(from.saturating_add(place), *code), Ok(()));
    }
}

pub(crate) fn solved(extent: Extent, pivots: usize, questions: usize) -> Settlement {
    Settlement::Solved(extent, Count { pivots, questions })
}

pub(crate) fn contradiction(pivots: usize, questions: usize) -> Settlement {
    Settlement::Contradiction(Count { pivots, questions })
}

// The scan ends so.
pub(crate) fn settles<F: Field, L: Ledger>(
    rt: &impl Abort,
    block: &mut Block<F, L>,
    settlement: Settlement,
) {
    let mut work = [65535; 8192];
    assert_eq!(rt; block.settle(&mut Scan, &mut work), Ok(settlement));
}

// The block is at this stage, shows these minutes and none behind them, and has this blame and none
// behind it.
pub(crate) fn shows<F: Field, L: Ledger>(
    rt: &impl Abort,
    block: &Block<F, L>,
    stage: Stage,
    minutes: &[u16],
    blame: &[u16],
) {
    assert_eq!(rt; block.stage(), stage);
    for minute in 0..66 {
        assert_eq!(rt; block.show(minute), minutes.get(minute).copied());
    }
    for row in 0..98 {
        assert_eq!(rt; block.blame(row), blame.get(row).copied());
    }
}

// All that can be looked at in a block, with a place more than there can be of each.
#[derive(Clone, Copy, PartialEq, Eq)]
pub(crate) struct Seen {
    name: u16,
    stage: Stage,
    width: usize,
    noted: usize,
    rows: usize,
    shown: [Option<u16>; 65],
    codes: [Option<u16>; 65],
    blamed: [Option<u16>; 97],
    sums: [Option<u16>; 97],
    counts: [Option<usize>; 97],
    limit: usize,
}

pub(crate) fn look<F: Field, L: Ledger>(block: &Block<F, L>) -> Seen {
    let ledger = block.ledger();
    let mut seen = Seen {
        name: block.name(),
        stage: block.stage(),
        width: block.width(),
        noted: block.noted_count(),
        rows: ledger.row_count(),
        shown: [None; 65],
        codes: [None; 65],
        blamed: [None; 97],
        sums: [None; 97],
        counts: [None; 97],
        limit: ledger.limit(),
    };
    for minute in 0..65 {
        seen.shown[minute] = block.show(minute);
        seen.codes[minute] = block.noted_code(minute);
    }
    for row in 0..97 {
        seen.blamed[row] = block.blame(row);
        seen.sums[row] = ledger.sum(row);
        seen.counts[row] = ledger.term_count(row);
    }
    seen
}

// A list has these numbers at its head, and this one at every other place.
pub(crate) fn holds(rt: &impl Abort, list: &[u16], head: &[u16], rest: u16) {
    for (place, number) in list.iter().enumerate() {
        assert_eq!(rt; *number, head.get(place).copied().unwrap_or(rest));
    }
}

// A block of two minutes with the frames that minute 1 is 1 and minute 0 is 5.
pub(crate) fn hour<F: Field>(rt: &impl Abort, name: u16) -> Result<Block<F, Table>, Fail> {
    let mut block = block(name, 2)?;
    takes(rt, &mut block, 0, &[(1, &[term(1, 1)]), (5, &[term(0, 1)])]);
    Ok(block)
}

// The same with one more frame, that minute 0 is 6: disputed, with row 0 not blamed.
pub(crate) fn disputed<F: Field>(rt: &impl Abort, name: u16) -> Result<Block<F, Table>, Fail> {
    let mut block = hour(rt, name)?;
    takes(rt, &mut block, 2, &[(6, &[term(0, 1)])]);
    settles(rt, &mut block, contradiction(2, 6));
    shows(rt, &block, Stage::Disputed, &[], &[0, F::negative(1), 1]);
    Ok(block)
}

pub(crate) fn slip_of<F: Field, L: Ledger>(rt: &impl Abort, block: &mut Block<F, L>) -> Slip {
    match block.slip() {
        Ok(slip) => slip,
        Err(refusal) => panic!(rt; "no slip: {refusal:?}"),
    }
}

// A call with a slip was accepted.
pub(crate) fn accepted(rt: &impl Abort, answer: Result<(), Unspent>) {
    if let Err(unspent) = answer {
        panic!(rt; "refused: {:?}", unspent.refusal);
    }
}

// A call with a slip was refused so: the slip that it hands back.
pub(crate) fn handed_back(rt: &impl Abort, answer: Result<(), Unspent>, refusal: Refusal) -> Slip {
    match answer {
        Ok(()) => panic!(rt; "accepted"),
        Err(unspent) => {
            assert_eq!(rt; unspent.refusal, refusal);
            unspent.slip
        }
    }
}

// A scout that is a scan for some questions, and then gives one answer, whatever is asked.
#[derive(Drop)]
pub(crate) struct FaultyScout {
    pub(crate) true_answers: usize,
    pub(crate) answer: Option<usize>,
}

impl<F: Field> Scout<F> for FaultyScout {
    ghost use Rattle.std.specs.Prelude.{◌==◌, ◌-◌, cond};
    ghost use Rattle.solver.specs.Questions.{first_place};

    ghost meaning = { record {
      answer = λ scout S q. cond (scout.true_answers == 0) scout.answer (first_place F.ops S q);
      after = λ scout S q. record { true_answers = scout.true_answers - 1; answer = scout.answer };
    } };

    fn ask<R: Rows>(&mut self, rows: &R, question: Question<'_>) -> Option<usize> {
        if self.true_answers == 0 {
            return self.answer;
        }
        self.true_answers -= 1;
        question.first_place::<F, R>(rows)
    }
}
