//! What a run finds.
ghost use Rattle.std.specs.Prelude.{◌≡◌, ◌≤◌, length, slice_index};
ghost use Rattle.rows.specs.declared.sizes.TheConstants.{MOST_MINUTES, MOST_ROWS};
ghost use Rattle.field.specs.Slices.{Filled};
ghost use Rattle.solver.specs.Slices.{IsVector};

use crate::vectors::zeros;
use rows::sizes::{MOST_MINUTES, MOST_ROWS};

/// The record of what runs found: the minutes of the last solved run, and the blame of the last
/// contradiction, a number u for each row. A row is blamed where its number is not 0.
#[derive(Clone, Copy)]
pub struct Findings {
    pub minutes: [u16; MOST_MINUTES],
    pub blame: [u16; MOST_ROWS],
    ghost minutes_long: { length minutes ≡ MOST_MINUTES },
    ghost blame_long: { length blame ≡ MOST_ROWS },
}

impl Findings {
    /// All 0.
    pub fn new() -> Findings
        ensures minutes { IsVector MOST_MINUTES (λ _. 0) result.minutes }
        ensures blame { IsVector MOST_ROWS (λ _. 0) result.blame }
    {
        Findings {
            minutes: zeros(),
            blame: zeros(),
        }
    }

    // Writes the minutes of a solved run.
    pub(crate) fn write_minutes(&mut self, x: &[u16])
        requires { length x.now ≤ MOST_MINUTES }
        ensures minutes { let codes = slice_index x.now in
            Filled (length x.now) codes self.old.minutes self.new.minutes }
        ensures blame { self.new.blame ≡ self.old.blame }
    {
        // In a copy: a part of a field that is lent beside ghost fields is not covered by the
        // check. So below.
        let mut minutes = self.minutes;
        minutes[..x.len()].copy_from_slice(x);
        self.minutes = minutes;
    }

    // Writes the multipliers of a contradiction.
    pub(crate) fn write_blame(&mut self, u: &[u16])
        requires { length u.now ≤ MOST_ROWS }
        ensures minutes { self.new.minutes ≡ self.old.minutes }
        ensures blame { Filled (length u.now) (slice_index u.now) self.old.blame self.new.blame }
    {
        let mut blame = self.blame;
        blame[..u.len()].copy_from_slice(u);
        self.blame = blame;
    }
}
