//! The theorems, each demanded by the contract of a function that does nothing.
ghost use Rattle.std.specs.Prelude.{ℕ};
ghost use Rattle.algebra.specs.Pivots.{Pivots, PivotsOf};
ghost use Rattle.algebra.specs.Theorems.{SumLaws, ProductLaws, SpanLaws, GrowthLaws, PivotLaws, RankLaws, SchurLaws, SolutionLaws, NoSolution, UniquenessLaws, KernelLaws, EliminationLaws, ProfileLaws};

use field::fields::Field;

// Sums are linear and change places, and so do products of matrices and vectors.
pub fn sums_are_linear<F: Field>()
    ensures sums { SumLaws F.Field.ops }
    ensures products { ProductLaws F.Field.ops }
{}

// Combinations of combinations are combinations, and independent rows within the span of r rows are at most r.
pub fn spans_bound_independent_rows<F: Field>()
    ensures { SpanLaws F.Field.ops }
{}

// Pivots of any matrix grow by a row and a column where their Schur complement is not 0: the four blocks are an inverse
// on both sides.
pub fn pivots_grow<F: Field>()
    ensures { (n m : ℕ) (A : ℕ → ℕ → ℕ) → GrowthLaws F.Field.ops n m A }
{}

// Pivot rows are independent, and no more than the rank.
pub fn pivot_rows_are_independent<F: Field>()
    ensures pivots { (n m : ℕ) (A : ℕ → ℕ → ℕ) (S : Pivots) → PivotsOf F.Field.ops n m A S → PivotLaws F.Field.ops n m A S }
    ensures rank { (n m : ℕ) (A : ℕ → ℕ → ℕ) (S : Pivots) → PivotsOf F.Field.ops n m A S → RankLaws F.Field.ops n m A S }
{}

// The Schur complement tells which rows are combinations of the pivot rows.
pub fn schur_complements_tell_spans<F: Field>()
    ensures { (n m : ℕ) (A : ℕ → ℕ → ℕ) (S : Pivots) → PivotsOf F.Field.ops n m A S → SchurLaws F.Field.ops n m A S }
{}

// Pivots solve their rows, and for any other row give the combination that tells what is left of it.
pub fn pivots_solve<F: Field>()
    ensures { (n m : ℕ) (A : ℕ → ℕ → ℕ) (S : Pivots) → PivotsOf F.Field.ops n m A S → SolutionLaws F.Field.ops n m A S }
{}

// Where a combination of the rows is 0 and that of the sums is not, nothing satisfies all rows.
pub fn contradictions_refute<F: Field>()
    ensures { NoSolution F.Field.ops }
{}

// Choices that satisfy the pivot rows are equal if they agree outside the pivot columns.
pub fn pivot_rows_determine_choices<F: Field>()
    ensures { (n m : ℕ) (A : ℕ → ℕ → ℕ) (S : Pivots) → PivotsOf F.Field.ops n m A S → UniquenessLaws F.Field.ops n m A S }
{}

// Where the pivot rows span all rows, every column but the pivots' is free.
pub fn other_columns_are_free<F: Field>()
    ensures { (n m : ℕ) (A : ℕ → ℕ → ℕ) (S : Pivots) → PivotsOf F.Field.ops n m A S → (j : ℕ) → KernelLaws F.Field.ops n m A S j }
{}

// An elimination may begin with nothing, pass over a row that the pivot rows give, and take any other as a pivot.
pub fn eliminations_find_profiles<F: Field>()
    ensures { (m : ℕ) (A : ℕ → ℕ → ℕ) → EliminationLaws F.Field.ops m A }
{}

// Every matrix has one row rank profile: the lexicographically least of the longest lists of independent rows.
pub fn profiles_are_least<F: Field>()
    ensures { (n m : ℕ) (A : ℕ → ℕ → ℕ) → ProfileLaws F.Field.ops n m A }
{}
