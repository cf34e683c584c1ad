//! Clients of a block: a dispute ended in one call, and a frame that is taken and settled. They are
//! proved from what the calls of a block promise, and from nothing else.
ghost use Rattle.std.specs.Prelude.{◌≡◌, length, IfOk, OnErr};
ghost use Rattle.frame.specs.Refusals.{numbered, numbered_as};
ghost use Rattle.rows.specs.Ledgers.{row_of};
ghost use Rattle.receiver.specs.Contents.{left_by, with_row, without_row, with_run, emptied, run_of};
ghost use Rattle.receiver.specs.Answers.{answer_to_take};
ghost use Rattle.receiver.specs.Settlements.{settlement_case};
ghost use Rattle.receiver.specs.Blocks.{contents};
ghost use Rattle.disputes.specs.Clients.{answer_to_strike_now, answer_to_abandon_now, answer_to_both};
ghost use Rattle.disputes.specs.Clients.{ShowsWith, WasUsed};

use field::fields::Field;
use frame::frames::Frame;
use frame::refusals::Refusal;
use receiver::blocks::Block;
use receiver::settlements::Settlement;
use receiver::slips::Unspent;
use rows::caps::Cap;
use rows::ledgers::Ledger;
use solver::scouts::Scout;

/// Strikes a row of a disputed block. Refuses where the block has no slip to give (7), then a row
/// that does not exist or is not blamed (9); the slip is then given back.
pub fn strike_now<F: Field, L: Ledger>(block: &mut Block<F, L>, row: usize) -> Result<(), Refusal>
    ensures answer { numbered result ≡ answer_to_strike_now (contents block.old) row }
    ensures contents { let b = contents block.old in
        contents block.new ≡ left_by result (without_row b row) b }
    ensures used { WasUsed F.ops (contents block.old) → WasUsed F.ops (contents block.new) }
{
    let slip = block.slip()?;
    let Err(Unspent { refusal, slip }) = block.strike(slip, row) else {
        return Ok(());
    };
    // The block's own slip: it is taken back.
    let _returned = block.give_back(slip);
    Err(refusal)
}

/// Abandons a disputed block. Refuses where the block has no slip to give (7).
pub fn abandon_now<F: Field, L: Ledger>(block: &mut Block<F, L>) -> Result<(), Refusal>
    ensures answer { numbered result ≡ answer_to_abandon_now (contents block.old) }
    ensures contents { let b = contents block.old in
        contents block.new ≡ left_by result (emptied b) b }
    ensures used { WasUsed F.ops (contents block.old) → WasUsed F.ops (contents block.new) }
{
    let slip = block.slip()?;
    let _abandoned = block.abandon(slip);
    Ok(())
}

/// Takes a frame into a block over a ledger under two caps, and settles it with any scout. What the
/// block shows afterwards, if it shows anything, satisfies the frame, whatever was done before.
/// Refuses as `take` does (1, 2, 3, 5), and then changes nothing; and after it as `settle` does (6).
pub fn take_and_settle<F: Field, L: Ledger, S: Scout<F>>(
    block: &mut Block<F, Cap<Cap<L>>>,
    frame: &Frame<'_>,
    scout: &mut S,
    work: &mut [u16],
) -> Result<Settlement, Refusal>
    ensures answer { let b = contents block.old in let r = row_of frame.now in
        let run = run_of F.ops (with_row b r) S.meaning scout.old in
        numbered_as settlement_case result
        ≡ answer_to_both F.ops b r (length work.old) run.outcome }
    ensures contents { let b = contents block.old in let r = row_of frame.now in
        let run = run_of F.ops (with_row b r) S.meaning scout.old in
        let settled = left_by result (with_run (with_row b r) run) (with_row b r) in
        contents block.new ≡ left_by (answer_to_take F.ops b r) settled b }
    ensures scout { OnErr result (scout.new ≡ scout.old) }
    ensures work { OnErr result (work.new ≡ work.old) }
    ensures used { WasUsed F.ops (contents block.old) → WasUsed F.ops (contents block.new) }
    ensures shows { IfOk result (λ _. WasUsed F.ops (contents block.old) →
        ShowsWith F.ops (contents block.new) (row_of frame.now)) }
{
    block.take(frame)?;
    block.settle(scout, work)
}
