//! The terms of a row, one after the other.
ghost use Rattle.std.specs.Prelude.{◌≡◌};
ghost use Rattle.std.specs.Option.{option_map};
ghost use Rattle.std.specs.Iterator.{YieldsFirst, item_count};
ghost use Rattle.rows.specs.RowTerms.{terms_left, terms_of_row};

use crate::reading::Rows;
use frame::terms::Term;
use std::ops::Range;

/// The terms of a row that are still to come, by their numbers.
#[derive(Drop)]
pub struct RowTerms<'a, R> {
    rows: &'a R,
    row: usize,
    numbers: Range<usize>,
}

impl<'a, R: Rows> Iterator for RowTerms<'a, R> {
    type Item = Term;

    ghost next_gives = { YieldsFirst (terms_left R.system) };

    ghost remaining = { item_count (terms_left R.system) };

    fn next(&mut self) -> Option<Term> {
        let number = self.numbers.next()?;
        self.rows.term(self.row, number)
    }
}

/// The terms of a row, in order; none where there is no such row.
// A row goes by its number, as in each reading call: rows that leave out terms have none to lend.
pub fn terms<R: Rows>(rows: &R, row: usize) -> Option<RowTerms<'_, R>>
    ensures { option_map (terms_left R.system) result ≡ terms_of_row (R.system rows.now) row }
{
    let count = rows.term_count(row)?;
    Some(RowTerms {
        rows,
        row,
        numbers: 0..count,
    })
}
