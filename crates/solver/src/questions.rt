//! Questions about rows.
ghost use Rattle.std.specs.Prelude.{◌≡◌, ℕ, ◌<◌, slice_index};
ghost use Rattle.rows.specs.Values.{choice, column_value};
ghost use Rattle.solver.specs.Slices.{IsVector};
ghost use Rattle.solver.specs.Questions.{about_rows, about_columns, asked, side};
ghost use Rattle.solver.specs.Questions.{value_of, first_place, TrueAnswer};

use crate::vectors::{add_row, entry_or_zero, zeros};
use field::fields::Field;
use rows::reading::Rows;
use rows::sizes::MOST_MINUTES;
use rows::values::row_value;

/// Which of the two questions.
#[derive(Clone, Copy, PartialEq, Eq, Debug)]
pub enum Side {
    /// about rows
    Row,
    /// about columns, which are minutes
    Column,
}

/// A question about given rows, the system A, b.
#[derive(Clone, Copy)]
pub enum Question<'a> {
    /// for a choice of minutes x: about the places of b − Ax, a row each
    Row(&'a [u16]),
    /// for a number for each row u: about the places of uA, a minute each
    Column(&'a [u16]),
}

// u at a row, 0 past its end.
fn factor_at(u: &[u16], row: usize) -> u16
    ensures { result ≡ choice u.now row }
{
    u.get(row).copied().unwrap_or(0)
}

// uA at every minute. Rows at which u is 0 are not read.
fn column_values<F: Field, R: Rows>(rows: &R, u: &[u16]) -> [u16; MOST_MINUTES]
    ensures { IsVector MOST_MINUTES (column_value F.ops (R.system rows.now) (choice u.now)) result }
{
    let mut values = zeros();
    for row in 0..rows.row_count() {
        add_row::<F, R>(&mut values, factor_at(u, row), rows, row);
    }
    values
}

// uA at a minute. Rows at which u is 0 are not read.
fn column_value<F: Field, R: Rows>(rows: &R, u: &[u16], minute: usize) -> u16
    ensures { result ≡ column_value F.ops (R.system rows.now) (choice u.now) minute }
{
    let mut total = 0;
    for row in 0..rows.row_count() {
        let factor = factor_at(u, row);
        if factor != 0 {
            let weight = entry_or_zero::<F, R>(rows, row, minute);
            total = F::plus(total, F::times(factor, weight));
        }
    }
    total
}

// The first row that x does not satisfy. No row is read beyond it.
fn first_row<F: Field, R: Rows>(rows: &R, x: &[u16]) -> Option<usize>
    ensures { result ≡ first_place F.ops (R.system rows.now) (about_rows x.now) }
{
    (0..rows.row_count()).find(|&row| row_value::<F, R, &[u16]>(rows, row, &x) != Some(0))
}

// The first minute where uA is not 0.
fn first_column<F: Field, R: Rows>(rows: &R, u: &[u16]) -> Option<usize>
    ensures { result ≡ first_place F.ops (R.system rows.now) (about_columns u.now) }
{
    let values = column_values::<F, R>(rows, u);
    (0..rows.width()).find(|&minute| values[minute] != 0)
}

impl Question<'_> {
    /// Whether it is about rows or about columns.
    pub fn side(&self) -> Side
        ensures { result ≡ side (asked self.now) }
    {
        match self {
            Question::Row(_) => Side::Row,
            Question::Column(_) => Side::Column,
        }
    }

    /// The value at a place; none where there is no such place.
    pub fn value<F: Field, R: Rows>(&self, rows: &R, place: usize) -> Option<u16>
        ensures { result ≡ value_of F.ops (R.system rows.now) (asked self.now) place }
    {
        match self {
            Question::Row(x) => row_value::<F, R, &[u16]>(rows, place, x),
            Question::Column(u) if place < rows.width() => {
                Some(column_value::<F, R>(rows, u, place))
            }
            Question::Column(_) => None,
        }
    }

    /// The first place whose value is not 0, none where all are 0: a true answer.
    pub fn first_place<F: Field, R: Rows>(&self, rows: &R) -> Option<usize>
        ensures first { result ≡ first_place F.ops (R.system rows.now) (asked self.now) }
        ensures truth { TrueAnswer F.ops (R.system rows.now) (asked self.now) result }
    {
        match self {
            Question::Row(x) => first_row::<F, R>(rows, x),
            Question::Column(u) => first_column::<F, R>(rows, u),
        }
    }
}
