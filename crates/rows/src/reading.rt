//! Rows for reading.
ghost use Rattle.std.specs.Prelude.{◌≡◌, length};
ghost use Rattle.rows.specs.Systems.{System, WellFormed, term_count_of, term_of, sum_of_row};

use frame::terms::Term;

/// Rows: a linear system for reading. A row is an equation, the weighted sum of some minutes. Rows
/// and terms are counted from 0; what does not exist is none. Reading changes nothing.
pub trait Rows {
    ghost system: { Self → System };

    /// The number of minutes, 1 to 64.
    fn width(&self) -> usize
        ensures { result ≡ (system self.now).width };

    /// The number of rows, at most 96.
    fn row_count(&self) -> usize
        ensures { result ≡ length (system self.now).rows };

    /// The number of terms of a row.
    fn term_count(&self, row: usize) -> Option<usize>
        ensures { result ≡ term_count_of (system self.now) row };

    /// A row's term.
    fn term(&self, row: usize, number: usize) -> Option<Term>
        ensures { result ≡ term_of (system self.now) row number };

    /// A row's sum, any word.
    fn sum(&self, row: usize) -> Option<u16>
        ensures { result ≡ sum_of_row (system self.now) row };

    ghost formed: { (rows : Self) → WellFormed (system rows) };
}
