//! Pivots in words that the caller lends.
ghost use Rattle.solver.specs.Steps.Pivots.{PivotsFit};
ghost use Rattle.solver.specs.Lemmas.Fits.{PivotsFit-prop};

use crate::spaces::WORK_WORDS;
use crate::vectors::{
    add_multiple, dot, entry_or_zero, negated, placed, row_weights, write_negatives, zeros,
};
use field::fields::Field;
use rows::reading::Rows;
use rows::sizes::{MOST_MINUTES, MOST_ROWS};

// The words of the inverse: as many rows as there can be pivots, each as long.
const INVERSE_WORDS: usize = MOST_MINUTES * MOST_MINUTES;

// Pivots of the matrix of some rows: pivot rows, pivot columns, and the inverse of the matrix at
// these.
#[derive(Drop)]
pub struct PivotSpace<'a> {
    count: usize,
    pivot_rows: &'a mut [u16],
    pivot_columns: &'a mut [u16],
    inverse: &'a mut [u16],
    ghost fit: { PivotsFit count «pivot_rows».now «pivot_columns».now
        inverse.now } by { PivotsFit-prop count «pivot_rows».now «pivot_columns».now
            inverse.now },
}

impl<'a> PivotSpace<'a> {
    ghost use Rattle.std.specs.Prelude.{◌≡◌, ℕ, ◌<◌, ◌≤◌, length, slice_index};
    ghost use Rattle.field.specs.Slices.{Filled};
    ghost use Rattle.rows.specs.Values.{entry};
    ghost use Rattle.algebra.specs.Places.{Distinct, Outside};
    ghost use Rattle.algebra.specs.Vectors.{dot, mul_vec, unit_minus};
    ghost use Rattle.algebra.specs.Pivots.{row_coefficients, solution, grow};
    ghost use Rattle.solver.specs.Slices.{IsVector};
    ghost use Rattle.solver.specs.Steps.Vectors.{Begins};
    ghost use Rattle.rows.specs.Systems.{sum_at};
    ghost use Rattle.solver.specs.Steps.Pivots.{RowWidened, RowsWidened, LastRow, SamePivots};
    ghost use Rattle.solver.specs.Steps.Spaces.{pivots_of, SamePlaces};

    // No pivots, in a work space.
    pub(crate) fn new(work: &'a mut [u16]) -> PivotSpace<'a>
        requires { WORK_WORDS ≤ length work.old }
        ensures { result.count ≡ 0 }
    {
        let (inverse, rest) = work.split_at_mut(INVERSE_WORDS);
        let (pivot_rows, rest) = rest.split_at_mut(MOST_MINUTES);
        let (pivot_columns, _) = rest.split_at_mut(MOST_MINUTES);
        PivotSpace {
            count: 0,
            pivot_rows,
            pivot_columns,
            inverse,
        }
    }

    pub(crate) fn count(&self) -> usize
        ensures { result ≡ self.now.count }
    {
        self.count
    }

    // Row k of the inverse.
    fn inverse_row(&self, k: usize) -> &[u16]
        requires { k < self.now.count }
        ensures long { length result.now ≡ self.now.count }
        ensures each { Begins self.now.count ((pivots_of self.now).inverse k) result.now }
    {
        &self.inverse[k * MOST_MINUTES..k * MOST_MINUTES + self.count]
    }

    // The inverse times a vector.
    fn times<F: Field>(&self, v: &[u16; MOST_MINUTES]) -> [u16; MOST_MINUTES]
        ensures { let P = pivots_of self.now in
            Begins P.count (mul_vec F.ops P.count P.inverse (slice_index v.now)) result }
    {
        let mut product = zeros();
        for k in 0..self.count {
            product[k] = dot::<F>(self.inverse_row(k), v);
        }
        product
    }

    // The sums at the pivot rows.
    fn sums<R: Rows>(&self, rows: &R) -> [u16; MOST_MINUTES]
        ensures { let P = pivots_of self.now in
            Begins P.count (λ k. sum_at (R.system rows.now) (P.row k)) result }
    {
        let mut sums = zeros();
        for k in 0..self.count {
            sums[k] = rows.sum(usize::from(self.pivot_rows[k])).unwrap_or(0);
        }
        sums
    }

    // The weights at a minute in the pivot rows.
    fn column<F: Field, R: Rows>(&self, rows: &R, minute: usize) -> [u16; MOST_MINUTES]
        ensures { let P = pivots_of self.now in
            Begins P.count (λ k. entry F.ops (R.system rows.now) (P.row k) minute) result }
    {
        let mut column = zeros();
        for k in 0..self.count {
            column[k] = entry_or_zero::<F, R>(rows, usize::from(self.pivot_rows[k]), minute);
        }
        column
    }

    // x: what solves the pivot rows, 0 at all minutes but the pivot columns.
    pub(crate) fn solution<F: Field, R: Rows>(&self, rows: &R) -> [u16; MOST_MINUTES]
        ensures { let P = pivots_of self.now in
            Distinct P.count P.column →
            IsVector MOST_MINUTES (solution F.ops (sum_at (R.system rows.now)) P) result }
    {
        let product = self.times::<F>(&self.sums(rows));
        placed(&self.pivot_columns[..self.count], &product)
    }

    // vB: the combination of the pivot rows that agrees with a row at the pivot columns.
    pub(crate) fn row_coefficients<F: Field, R: Rows>(
        &self,
        rows: &R,
        row: usize,
    ) -> [u16; MOST_MINUTES]
        ensures { let P = pivots_of self.now in
            let A = entry F.ops (R.system rows.now) in
            Begins P.count (row_coefficients F.ops A P row) result }
    {
        let weights = row_weights::<F, R>(rows, row);
        let mut sums = zeros();
        for k in 0..self.count {
            let weight = weights[usize::from(self.pivot_columns[k])];
            // Few of the weights are not 0.
            if weight != 0 {
                add_multiple::<F>(&mut sums, weight, self.inverse_row(k));
            }
        }
        sums
    }

    // u: 1 at a row that is no pivot row, the negatives of its coefficients at the pivot rows, 0
    // elsewhere.
    pub(crate) fn multipliers<F: Field>(
        &self,
        row: usize,
        coefficients: &[u16; MOST_MINUTES],
    ) -> [u16; MOST_ROWS]
        requires { row < MOST_ROWS }
        ensures { let P = pivots_of self.now in
            Distinct P.count P.row → Outside P.count P.row row →
            let u = unit_minus F.ops row P.count P.row (slice_index coefficients.now) in
            IsVector MOST_ROWS u result }
    {
        let mut u = placed(&self.pivot_rows[..self.count], &negated::<F>(coefficients));
        u[row] = 1;
        u
    }

    // Row k of the inverse as a row of a greater one.
    fn widen_row<F: Field>(&mut self, k: usize, factor: u16, z: &[u16])
        requires row { k < self.old.count }
        requires long { length z.now ≡ self.old.count }
        requires room { self.old.count < MOST_MINUTES }
        ensures kept { SamePlaces self.old self.new }
        ensures widened { let z = slice_index z.now in
            RowWidened F.ops self.old.count k factor z self.old.inverse.now self.new.inverse.now }
    {
        let row = &mut self.inverse[k * MOST_MINUTES..(k + 1) * MOST_MINUTES];
        add_multiple::<F>(row, factor, z);
        row[z.len()] = F::negative(factor);
    }

    // All its rows so.
    fn widen<F: Field>(&mut self, y: &[u16; MOST_MINUTES], w: u16, z: &[u16])
        requires long { length z.now ≡ self.old.count }
        requires room { self.old.count < MOST_MINUTES }
        ensures kept { SamePlaces self.old self.new }
        ensures widened { let s = self.old.count in
            let y = slice_index y.now in
            let z = slice_index z.now in
            RowsWidened F.ops s s y w z self.old.inverse.now self.new.inverse.now }
    {
        for k in 0..self.count {
            self.widen_row::<F>(k, F::times(y[k], w), z);
        }
    }

    // The last row of the greater one.
    fn add_last_row<F: Field>(&mut self, w: u16, z: &[u16])
        requires long { length z.now ≡ self.old.count }
        requires room { self.old.count < MOST_MINUTES }
        ensures kept { SamePlaces self.old self.new }
        ensures last { let z = slice_index z.now in
            LastRow F.ops self.old.count w z self.old.inverse.now self.new.inverse.now }
    {
        let row = &mut self.inverse[self.count * MOST_MINUTES..(self.count + 1) * MOST_MINUTES];
        write_negatives::<F>(row, w, z);
        row[z.len()] = w;
    }

    // What a row leaves of its weight at a minute, the combination of the pivot rows taken away.
    fn complement<F: Field, R: Rows>(
        &self,
        rows: &R,
        row: usize,
        minute: usize,
        z: &[u16],
        column: &[u16; MOST_MINUTES],
    ) -> u16
        requires { length z.now ≡ self.now.count }
        ensures { let z = slice_index z.now in
            let combined = dot F.ops self.now.count z (slice_index column.now) in
            let own = entry F.ops (R.system rows.now) row minute in
            result ≡ F.ops.plus own (F.ops.negative combined) }
    {
        let weight = entry_or_zero::<F, R>(rows, row, minute);
        F::plus(weight, F::negative(dot::<F>(z, column)))
    }

    // A row and a minute as one pivot more, where the complement is not 0.
    pub(crate) fn grow<F: Field, R: Rows>(
        &mut self,
        rows: &R,
        row: usize,
        minute: usize,
        coefficients: &[u16; MOST_MINUTES],
    )
        requires room { self.old.count < MOST_MINUTES }
        requires row { row < MOST_ROWS }
        requires minute { minute < MOST_MINUTES }
        ensures { let P = pivots_of self.old in
            let A = entry F.ops (R.system rows.now) in
            Begins P.count (row_coefficients F.ops A P row) coefficients.now →
            SamePivots (pivots_of self.new) (grow F.ops A P row minute) }
    {
        let z = &coefficients[..self.count];
        let column = self.column::<F, R>(rows, minute);
        let y = self.times::<F>(&column);
        let w = F::inverse(self.complement::<F, R>(rows, row, minute, z, &column)).unwrap_or(0);
        self.widen::<F>(&y, w, z);
        self.add_last_row::<F>(w, z);
        self.pivot_rows[self.count] = row as u16;
        self.pivot_columns[self.count] = minute as u16;
        self.count += 1;
    }

    // Writes the pivot rows, in the order found, to the head of a list.
    pub(crate) fn write_rows(&self, list: &mut [u16])
        requires { self.now.count ≤ length list.old }
        ensures { Filled self.now.count (pivots_of self.now).row list.old list.new }
    {
        list[..self.count].copy_from_slice(&self.pivot_rows[..self.count]);
    }
}
