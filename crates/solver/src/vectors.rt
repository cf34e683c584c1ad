//! Vectors of a field's numbers in slices.
ghost use Rattle.std.specs.Prelude.{◌≡◌, ℕ, ◌<◌, ◌≤◌, min, length, slice_index};
ghost use Rattle.field.specs.Slices.{Filled};
ghost use Rattle.rows.specs.Values.{entry};
ghost use Rattle.algebra.specs.Vectors.{dot};
ghost use Rattle.solver.specs.Slices.{Codes, IsVector};
ghost use Rattle.solver.specs.Steps.Vectors.{Placed};

use field::fields::Field;
use rows::reading::Rows;
use rows::sizes::MOST_MINUTES;
use rows::terms::terms;
use rows::values::entry;

// As many zeros.
pub(crate) fn zeros<const N: usize>() -> [u16; N]
    ensures { IsVector N (λ _. 0) result }
{
    [0; N]
}

// x · y, over the places that both have.
pub(crate) fn dot<F: Field>(x: &[u16], y: &[u16]) -> u16
    ensures { let count = min (length x.now) (length y.now) in
        result ≡ dot F.ops count (slice_index x.now) (slice_index y.now) }
{
    let count = x.len().min(y.len());
    let mut total = 0;
    for k in 0..count {
        total = F::plus(total, F::times(x[k], y[k]));
    }
    total
}

// Adds a multiple of y to x, at the places that both have.
pub(crate) fn add_multiple<F: Field>(x: &mut [u16], factor: u16, y: &[u16])
    ensures { let count = min (length x.old) (length y.now) in
        let more : ℕ → ℕ = λ k. F.ops.times factor (slice_index y.now k) in
        Filled count (λ k. F.ops.plus (slice_index x.old k) (more k)) x.old x.new }
{
    let count = x.len().min(y.len());
    for k in 0..count {
        x[k] = F::plus(x[k], F::times(factor, y[k]));
    }
}

// Writes the negatives of a multiple of y into x, at the places that both have.
pub(crate) fn write_negatives<F: Field>(x: &mut [u16], factor: u16, y: &[u16])
    ensures { let count = min (length x.old) (length y.now) in
        Filled count (λ k. F.ops.negative (F.ops.times factor (slice_index y.now k))) x.old x.new }
{
    let count = x.len().min(y.len());
    for k in 0..count {
        x[k] = F::negative(F::times(factor, y[k]));
    }
}

// Adds a multiple of a row's weights to values, one for each minute. The row is read once, and not
// at all for 0 times it.
pub(crate) fn add_row<F: Field, R: Rows>(
    values: &mut [u16; MOST_MINUTES],
    factor: u16,
    rows: &R,
    row: usize,
)
    requires { Codes F.ops.q values.old }
    ensures { let weight : ℕ → ℕ = entry F.ops (R.system rows.now) row in
        let more : ℕ → ℕ = λ c. F.ops.times factor (weight c) in
        let sum : ℕ → ℕ = λ c. F.ops.plus (slice_index values.old c) (more c) in
        Filled MOST_MINUTES sum values.old values.new }
{
    if factor == 0 {
        return;
    }
    if let Some(terms) = terms(rows, row) {
        for term in terms {
            let value = &mut values[usize::from(term.minute)];
            *value = F::plus(*value, F::times(factor, term.weight));
        }
    }
}

// A row's weights, at each minute.
pub(crate) fn row_weights<F: Field, R: Rows>(rows: &R, row: usize) -> [u16; MOST_MINUTES]
    ensures { IsVector MOST_MINUTES (entry F.ops (R.system rows.now) row) result }
{
    let mut weights = zeros();
    add_row::<F, R>(&mut weights, 1, rows, row);
    weights
}

// A row's weight at a minute, 0 where there is none.
pub(crate) fn entry_or_zero<F: Field, R: Rows>(rows: &R, row: usize, minute: usize) -> u16
    ensures { result ≡ entry F.ops (R.system rows.now) row minute }
{
    entry::<F, R>(rows, row, minute).unwrap_or(0)
}

// The negatives of a vector's numbers.
pub(crate) fn negated<F: Field>(v: &[u16; MOST_MINUTES]) -> [u16; MOST_MINUTES]
    ensures { IsVector MOST_MINUTES (λ k. F.ops.negative (slice_index v.now k)) result }
{
    let mut negatives = zeros();
    for k in 0..MOST_MINUTES {
        negatives[k] = F::negative(v[k]);
    }
    negatives
}

// Values at places, and 0 elsewhere.
pub(crate) fn placed<const N: usize>(places: &[u16], values: &[u16; MOST_MINUTES]) -> [u16; N]
    requires few { length places.now ≤ MOST_MINUTES }
    requires below { (k : ℕ) → k < length places.now → slice_index places.now k < N }
    ensures long { length result ≡ N }
    ensures placed { let Q = slice_index places.now in
        Placed (length places.now) Q (slice_index values.now) result }
{
    let mut vector = zeros();
    for k in 0..places.len() {
        vector[usize::from(places[k])] = values[k];
    }
    vector
}
