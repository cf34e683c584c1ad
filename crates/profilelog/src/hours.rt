//! An hour that is open.
ghost use Rattle.std.specs.Prelude.{◌≡◌};
ghost use Rattle.frame.specs.Refusals.{numbered};
ghost use Rattle.rows.specs.Ledgers.{row_of, take_answer};
ghost use Rattle.rows.specs.Tables.{system_of};
ghost use Rattle.profilelog.specs.Hours.{opened, filled};

use frame::frames::Frame;
use frame::refusals::Refusal;
use lines::openings::{FieldName, Opening};
use rows::ledgers::Ledger;
use rows::reading::Rows;
use rows::sizes::{MOST_ROWS, Width};
use rows::tables::Table;
use std::marker::Model;

/// An hour: the field to calculate in, and the rows that its frames made.
#[derive(Drop)]
pub struct Hour {
    field: FieldName,
    rows: Table,
}

// Contracts see an hour as its field's name and what its rows mean.
impl Model for Hour {
    ghost use Rattle.profilelog.specs.Hours.{OpenHour};

    ghost Value = { OpenHour };

    ghost use Rattle.rows.specs.Tables.{system_of};

    ghost view = { λ hour. record { field = hour.field; system = system_of hour.rows } };
}

impl Hour {
    /// The hour that is opened, without rows; refuses a width that is not 1 to 64 (16).
    pub fn open(opening: Opening) -> Result<Hour, Refusal>
        ensures { numbered result ≡ opened opening }
    {
        let width = Width::try_from(usize::from(opening.width))?;
        Ok(Hour {
            field: opening.field,
            rows: Table::new(width),
        })
    }

    /// The field that was opened.
    pub fn field(&self) -> FieldName
        ensures { result ≡ self.now.field }
    {
        self.field
    }

    /// The rows, for reading.
    pub fn rows(&self) -> &Table
        ensures { system_of result.now ≡ self.now.system }
    {
        &self.rows
    }

    /// The number of minutes.
    pub fn width(&self) -> usize
        ensures { result ≡ self.now.system.width }
    {
        self.rows.width()
    }

    /// Appends a frame as the last row and returns its number, as a table does.
    pub fn take(&mut self, frame: &Frame<'_>) -> Result<usize, Refusal>
        ensures answer { numbered result
            ≡ take_answer self.old.system MOST_ROWS (row_of frame.now) }
        ensures after { self.new ≡ filled self.old (row_of frame.now) }
    {
        self.rows.take(frame)
    }
}
