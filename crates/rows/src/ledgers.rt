//! Ledgers: rows that are taken, struck and cleared.
ghost use Rattle.std.specs.Prelude.{◌≡◌, ℕ, List};
ghost use Rattle.frame.specs.Refusals.{numbered};
ghost use Rattle.frame.specs.Orders.{KeepsOrder};
ghost use Rattle.frame.specs.Parts.{terms_of};
ghost use Rattle.rows.specs.Ledgers.{LimitInRange, smallest_of, row_of, first_beyond};
ghost use Rattle.rows.specs.Ledgers.{admit_answer, admit_order};
ghost use Rattle.rows.specs.Ledgers.{take_answer, take_order, after_take};
ghost use Rattle.rows.specs.Ledgers.{strike_answer, after_strike, cleared};
ghost use Rattle.rows.specs.Values.{OthersSatisfied};

use crate::reading::Rows;
use frame::frames::Frame;
use frame::refusals::Refusal;

/// A ledger: rows that come from frames, one for each. It has a list of limits, the own numbers of
/// the caps, the outermost first, and last that of the ledger below them all; its limit is the
/// smallest of them. No call changes the width, the list, or the limit.
pub trait Ledger: Rows {
    ghost most: { Self → ℕ };

    ghost limits: { Self → List ℕ };

    /// How many rows there may be before take refuses, 1 to 96.
    fn limit(&self) -> usize
        ensures { result ≡ most self.now };

    /// Appends the frame as the last row and returns its number. Refuses the first term whose
    /// minute is not below the width (2, at that term), then a frame where there are limit rows or
    /// more (5); a refusal leaves the rows as they were.
    fn take(&mut self, frame: &Frame<'_>) -> Result<usize, Refusal>
        ensures answer { numbered result
            ≡ take_answer (Self.system self.old) (most self.old) (row_of frame.now) }
        ensures order { KeepsOrder
            (take_order (Self.system self.old) (most self.old) (terms_of frame.now))
            (numbered result) }
        ensures after { Self.system self.new
            ≡ after_take result (Self.system self.old) (row_of frame.now) }
        ensures kept { most self.new ≡ most self.old }
        ensures limits { limits self.new ≡ limits self.old };

    /// Makes a row empty, with no terms and sum 0. The other rows keep their numbers, and each
    /// choice of minutes satisfies one of them just where it did. Refuses a row that does not
    /// exist (9), and then leaves the rows as they were.
    fn strike(&mut self, row: usize) -> Result<(), Refusal>
        ensures answer { numbered result ≡ strike_answer (Self.system self.old) row }
        ensures after { Self.system self.new ≡ after_strike result (Self.system self.old) row }
        ensures others { OthersSatisfied (Self.system self.old) (Self.system self.new) row }
        ensures kept { most self.new ≡ most self.old }
        ensures limits { limits self.new ≡ limits self.old };

    /// Removes all rows.
    fn clear(&mut self)
        ensures after { Self.system self.new ≡ cleared (Self.system self.old) }
        ensures kept { most self.new ≡ most self.old }
        ensures limits { limits self.new ≡ limits self.old };

    ghost limited: { (ledger : Self) → LimitInRange (most ledger) };

    ghost limit_is_smallest: { (ledger : Self) → most ledger ≡ smallest_of (limits ledger) };
}

/// The number of the first term whose minute is not below the width, counted from 0; none where all
/// are.
pub fn first_beyond(frame: &Frame<'_>, width: usize) -> Option<usize>
    ensures { result ≡ first_beyond width 0 (terms_of frame.now) }
{
    frame
        .terms()
        .iter()
        .position(|term| width <= usize::from(term.minute))
}

/// The number that a frame's row gets in a ledger of this width and limit that holds `rows` rows.
/// Refuses as `take` does (2, at the first term beyond the width, then 5).
pub fn admit(frame: &Frame<'_>, width: usize, rows: usize, limit: usize) -> Result<usize, Refusal>
    ensures answer { numbered result ≡ admit_answer width rows limit (terms_of frame.now) }
    ensures order { let order = admit_order width rows limit (terms_of frame.now) in
        KeepsOrder order (numbered result) }
{
    match first_beyond(frame, width) {
        Some(term) => Err(Refusal::MinuteBeyondWidth(term)),
        None if rows < limit => Ok(rows),
        None => Err(Refusal::LedgerFull),
    }
}
