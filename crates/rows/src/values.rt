//! The matrix of rows, and the value of a row, in any field.
ghost use Rattle.std.specs.Prelude.{◌≡◌, ℕ};
ghost use Rattle.rows.specs.Systems.{row_at};
ghost use Rattle.rows.specs.Values.{choice, entry_of, row_value_of, ValueTells};

use crate::reading::Rows;
use crate::terms::terms;
use field::fields::{Field, code_of};

/// A[i,c]: the weight at a minute in a row as a code, 0 without such a term; none where there is no
/// such row or minute.
pub fn entry<F: Field, R: Rows>(rows: &R, row: usize, minute: usize) -> Option<u16>
    ensures { result ≡ entry_of F.ops (R.system rows.now) row minute }
{
    let terms = terms(rows, row)?;
    if minute >= rows.width() {
        return None;
    }
    // By `find` and `map_or` it takes a third longer.
    for term in terms {
        if usize::from(term.minute) == minute {
            return Some(code_of::<F>(term.weight));
        }
    }
    Some(0)
}

/// A choice of minutes: a number for each, which is read as a code.
pub trait Choice {
    ghost codes: { Self → ℕ → ℕ };

    /// The number that is chosen for a minute.
    fn code(&self, minute: u16) -> u16
        ensures { result ≡ codes self.now minute };
}

/// The numbers of a slice; past its end they are 0.
impl Choice for &[u16] {
    ghost codes = { λ x. choice x.now };

    fn code(&self, minute: u16) -> u16 {
        self.get(usize::from(minute)).copied().unwrap_or(0)
    }
}

/// A row's sum less its weights times the numbers that are chosen at their minutes, a code, and 0
/// just where the choice satisfies the row; none where there is no such row. Each term is read
/// once.
pub fn row_value<F: Field, R: Rows, X: Choice>(rows: &R, row: usize, x: &X) -> Option<u16>
    ensures value { result ≡ row_value_of F.ops (R.system rows.now) row (X.codes x.now) }
    ensures tells { ValueTells F.ops (row_at (R.system rows.now) row) (X.codes x.now) }
{
    let sum = rows.sum(row)?;
    let total = terms(rows, row)?.fold(0, |total, term| {
        F::plus(total, F::times(term.weight, x.code(term.minute)))
    });
    Some(F::plus(sum, F::negative(total)))
}
