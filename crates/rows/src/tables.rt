//! A table.
ghost use Rattle.std.specs.Prelude.{◌≡◌, ℕ, ◌<◌, ◌≤◌, length};
ghost use Rattle.frame.specs.Frames.{minute_at};
ghost use Rattle.rows.specs.declared.sizes.TheConstants.{MOST_ROWS};
ghost use Rattle.rows.specs.Slots.{slot_terms};

use crate::ledgers::{Ledger, admit};
use crate::reading::Rows;
use crate::sizes::{MOST_MINUTES, MOST_ROWS, Width};
use frame::buffers::FrameBuf;
use frame::frames::Frame;
use frame::refusals::Refusal;
use frame::terms::Term;

// A row's place in a table: the frame that was taken, or none once it is struck.
type Slot = Option<FrameBuf>;

/// A table: a ledger of up to 96 rows in memory of its own. Its rows are the first `count` slots.
// An array and a count: with a vector of fixed capacity the type would lose `Copy`, which it
// promises.
#[derive(Clone, Copy)]
pub struct Table {
    width: Width,
    count: usize,
    slots: [Slot; MOST_ROWS],
    ghost room: { length slots ≡ MOST_ROWS },
    ghost few: { count ≤ MOST_ROWS },
    ghost below: { (i k : ℕ) → i < count → k < length (slot_terms slots i)
        → minute_at (slot_terms slots i) k < width.number },
}

impl Table {
    ghost use Rattle.std.specs.Prelude.{◌≡◌, [], take};
    ghost use Rattle.std.specs.List.{slice_get};
    ghost use Rattle.std.specs.Option.{option_map};
    ghost use Rattle.rows.specs.Sizes.{size_number};
    ghost use Rattle.rows.specs.Tables.{system_of};

    /// A table without rows.
    pub fn new(width: Width) -> Table
        ensures { system_of result ≡ record { width = size_number MOST_MINUTES width; rows = [] } }
    {
        Table {
            width,
            count: 0,
            slots: [None; MOST_ROWS],
        }
    }

    // A row's slot; none where there is no such row.
    fn slot(&self, row: usize) -> Option<&Slot>
        ensures { option_map (λ slot. slot.now) result
            ≡ slice_get (take self.now.count self.now.slots) row }
    {
        self.slots[..self.count].get(row)
    }
}

impl Rows for Table {
    ghost use Rattle.rows.specs.Tables.{system_of};
    ghost use Rattle.rows.specs.Lemmas.SlotRows.{table_formed};

    ghost system = { system_of };

    ghost formed = { table_formed };

    fn width(&self) -> usize {
        self.width.number()
    }

    fn row_count(&self) -> usize {
        self.count
    }

    fn term_count(&self, row: usize) -> Option<usize> {
        Some(
            self.slot(row)?
                .as_ref()
                .map_or(0, |held| held.frame().count()),
        )
    }

    fn term(&self, row: usize, number: usize) -> Option<Term> {
        self.slot(row)?
            .as_ref()
            .and_then(|held| held.frame().term(number))
    }

    fn sum(&self, row: usize) -> Option<u16> {
        Some(
            self.slot(row)?
                .as_ref()
                .map_or(0, |held| held.frame().sum()),
        )
    }
}

impl Ledger for Table {
    ghost use Rattle.std.specs.Prelude.{◌∷◌, [], refl};
    ghost use Rattle.rows.specs.Lemmas.SlotRows.{table_limited};

    ghost most = { λ _. MOST_ROWS };

    ghost limits = { λ _. MOST_ROWS ∷ [] };

    ghost limited = { table_limited };

    ghost limit_is_smallest = { λ _. refl };

    fn limit(&self) -> usize {
        MOST_ROWS
    }

    fn take(&mut self, frame: &Frame<'_>) -> Result<usize, Refusal> {
        let row = admit(frame, self.width.number(), self.count, MOST_ROWS)?;
        self.slots[row] = Some(FrameBuf::from(frame));
        self.count = row + 1;
        Ok(row)
    }

    fn strike(&mut self, row: usize) -> Result<(), Refusal> {
        // By index: a slot that `get_mut` lends out of a struct with ghost fields is not covered by
        // the check.
        if row >= self.count {
            return Err(Refusal::NoSuchRow);
        }
        self.slots[row] = None;
        Ok(())
    }

    fn clear(&mut self) {
        self.count = 0;
    }
}
