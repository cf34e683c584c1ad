//! The row rank profile of rows.
ghost use Rattle.std.specs.Prelude.{◌≡◌, ◌<◌, length, IfOk, OnErr};
ghost use Rattle.frame.specs.Refusals.{refusal_only};
ghost use Rattle.rows.specs.Values.{entry};
ghost use Rattle.algebra.specs.Places.{Outside};
ghost use Rattle.algebra.specs.Profiles.{with_row};
ghost use Rattle.solver.specs.Steps.Pivots.{PivotsOfRows, SamePivots};
ghost use Rattle.solver.specs.Profiling.{profile_answer, Profiles};
ghost use Rattle.solver.specs.Steps.Spaces.{pivots_of};

use crate::pivots::PivotSpace;
use crate::questions::Question;
use crate::spaces::WORK_WORDS;
use field::fields::Field;
use frame::refusals::Refusal;
use rows::reading::Rows;
use rows::sizes::MOST_ROWS;

// One row of the elimination: a pivot more where the row is no combination of the pivot rows.
fn eliminate_row<F: Field, R: Rows>(rows: &R, pivots: &mut PivotSpace<'_>, row: usize)
    requires pivots { PivotsOfRows F.ops (R.system rows.now) (pivots_of pivots.old) }
    requires there { row < length (R.system rows.now).rows }
    requires outside { Outside pivots.old.count (pivots_of pivots.old).row row }
    ensures { let S = R.system rows.now in
        SamePivots (pivots_of pivots.new)
        (with_row F.ops S.width (entry F.ops S) (pivots_of pivots.old) row) }
{
    let coefficients = pivots.row_coefficients::<F, R>(rows, row);
    let u = pivots.multipliers::<F>(row, &coefficients);
    let question = Question::Column(&u[..rows.row_count()]);
    if let Some(minute) = question.first_place::<F, R>(rows) {
        pivots.grow::<F, R>(rows, row, minute, &coefficients);
    }
}

/// Writes the row rank profile, the numbers of the rows that are no combination of those before
/// them, rising, to the head of a list, and returns how many they are. Refuses a work space under
/// 8192 words or a list under 96 (6), and then changes nothing. What an accepted call leaves in the
/// work space is left free.
pub fn profile<F: Field, R: Rows>(
    rows: &R,
    work: &mut [u16],
    list: &mut [u16],
) -> Result<usize, Refusal>
    ensures answer { refusal_only result
        ≡ profile_answer (length work.old) (length list.old) }
    ensures profiles { IfOk result (Profiles F.ops (R.system rows.now) list.old list.new) }
    ensures work { OnErr result (work.new ≡ work.old) }
    ensures list { OnErr result (list.new ≡ list.old) }
{
    if work.len() < WORK_WORDS || list.len() < MOST_ROWS {
        return Err(Refusal::SpaceTooShort);
    }
    let mut pivots = PivotSpace::new(work);
    for row in 0..rows.row_count() {
        eliminate_row::<F, R>(rows, &mut pivots, row);
    }
    pivots.write_rows(list);
    Ok(pivots.count())
}
