//! Blocks.
ghost use Rattle.receiver.specs.Stands.{StandsOver};
ghost use Rattle.receiver.specs.Lemmas.Once.{StandsOver-prop};
ghost use Rattle.rows.specs.Ledgers.{row_of};
ghost use Rattle.receiver.specs.Answers.{first_no_code};
ghost use Rattle.std.specs.Prelude.{◌≡◌};

use crate::settlements::Settlement;
use crate::slips::{Slip, Unspent};
use crate::stages::{Dispute, Stage, State};
use field::fields::{Field, is_code};
use frame::frames::Frame;
use frame::refusals::Refusal;
use notes::layers::Noted;
use rows::ledgers::{Ledger, first_beyond};
use rows::reading::Rows;
use solver::findings::Findings;
use solver::outcomes::Outcome;
use solver::profiles::profile;
use solver::runs::settle;
use solver::scouts::Scout;
use std::iter::once;

/// A block: an hour of noted minutes and of frames in a ledger, and what the last settle found.
///
/// In any use of it, calls that are refused among them, what `show` gives fits every reading noted
/// and every frame taken since the last clearing and not struck; where it is disputed, no choice of
/// minutes fits them; and a settle failed exactly where its scout's answers were not all true. So
/// `new` promises, each call that may change a block, and `show`, `blame`, `stage` and `profile`, by
/// their clauses `law`.
#[derive(Drop)]
pub struct Block<F: Field, L: Ledger> {
    name: u16,
    noted: Noted<F, L>,
    state: State,
    ghost stands: { StandsOver noted state } by { StandsOver-prop noted state },
}

// The number of the first term whose weight is no code, the sum counting as the term after the
// last; none where all are codes.
fn first_no_code<F: Field>(frame: &Frame<'_>) -> Option<usize>
    ensures { result ≡ first_no_code F.ops (row_of frame.now) }
{
    let weights = frame.terms().iter().map(|term| term.weight);
    weights
        .chain(once(frame.sum()))
        .position(|number| !is_code::<F>(number))
}

impl<F: Field, L: Ledger> Block<F, L> {
    ghost use Rattle.std.specs.Prelude.{◌≡◌};
    ghost use Rattle.notes.specs.Notes.{noted_code, noted_count};
    ghost use Rattle.receiver.specs.Contents.{made, shown_at, blamed_at, rows_under_notes};
    ghost use Rattle.receiver.specs.Blocks.{contents, ledger_in, noted_in};
    ghost use Rattle.receiver.specs.Stages.{stage_case, state_case};
    ghost use Rattle.notes.specs.Layers.{system_noted};
    ghost use Rattle.solver.specs.Laws.{Impossible};
    ghost use Rattle.receiver.specs.Stages.{IsDisputed};
    ghost use Rattle.receiver.specs.Contents.{blame_of, NotesShown};
    ghost use Rattle.receiver.specs.Laws.{StaysSafe, BeginsSafe};

    /// A block of this name over a ledger, which is cleared: no rows, no notes, gathering.
    pub fn new(name: u16, ledger: L) -> Block<F, L>
        ensures contents { contents result
            ≡ made name (L.system ledger) (L.most ledger) (L.limits ledger) }
        ensures law { BeginsSafe F.ops (contents result) }
    {
        let mut noted = Noted::new(ledger);
        noted.clear_rows();
        Block {
            name,
            noted,
            state: State::Gathering,
        }
    }

    /// Its name.
    pub fn name(&self) -> u16
        ensures { result ≡ (contents self.now).name }
    {
        self.name
    }

    /// The number of minutes, 1 to 64.
    pub fn width(&self) -> usize
        ensures { result ≡ (contents self.now).system.width }
    {
        self.noted.width()
    }

    /// Its stage: gathering, settled or disputed.
    pub fn stage(&self) -> Stage
        ensures stage { stage_case result ≡ state_case (contents self.now).state }
        ensures law { StaysSafe F.ops (contents self.now) }
    {
        self.state.stage()
    }

    /// The code that is noted for a minute; none where none is.
    pub fn noted_code(&self, minute: usize) -> Option<u16>
        ensures { result ≡ noted_code (contents self.now).codes minute }
    {
        self.noted.noted_code(minute)
    }

    /// How many minutes are noted.
    pub fn noted_count(&self) -> usize
        ensures { result ≡ noted_count (contents self.now).codes }
    {
        self.noted.noted_count()
    }

    /// The ledger, for reading.
    pub fn ledger(&self) -> &L
        ensures { result.now ≡ ledger_in self.now }
    {
        self.noted.below()
    }

    /// The ledger as it stands; the block is gone.
    pub fn into_ledger(self) -> L
        ensures { result ≡ ledger_in self }
    {
        self.noted.into_below()
    }

    /// The rows under the notes: those that a settle is about.
    pub fn rows(&self) -> &Noted<F, L>
        ensures noted { result.now ≡ noted_in self.now }
        ensures rows { system_noted result.now ≡ rows_under_notes F.ops (contents self.now) }
    {
        &self.noted
    }

    /// The code found for a minute, in a settled block; none in another, and for a minute not below
    /// the width. At a noted minute it is the noted code.
    pub fn show(&self, minute: usize) -> Option<u16>
        ensures code { result ≡ shown_at (contents self.now) minute }
        ensures noted { NotesShown (contents self.now) }
        ensures law { StaysSafe F.ops (contents self.now) }
    {
        self.state.shown(minute, self.noted.width())
    }

    /// The number u of a row, in a disputed block; none in another, and for a row that does not
    /// exist. Times these numbers the weights of all rows add up to 0 at every minute, and the sums
    /// do not: so no minutes fit. A row is blamed where its number is not 0.
    pub fn blame(&self, row: usize) -> Option<u16>
        ensures blame { result ≡ blamed_at (contents self.now) row }
        ensures impossible { let b = contents self.now in
            IsDisputed b.state → Impossible F.ops (rows_under_notes F.ops b) (blame_of b) }
        ensures law { StaysSafe F.ops (contents self.now) }
    {
        self.state.blamed(row, self.noted.row_count())
    }
}

/// Readings and frames, and what they say.
impl<F: Field, L: Ledger> Block<F, L> {
    ghost use Rattle.std.specs.Prelude.{◌≡◌, [], length, IfOk, OnErr};
    ghost use Rattle.frame.specs.Refusals.{numbered, numbered_as, refusal_only};
    ghost use Rattle.frame.specs.Orders.{KeepsOrder};
    ghost use Rattle.rows.specs.Ledgers.{row_of};
    ghost use Rattle.rows.specs.Values.{choice};
    ghost use Rattle.solver.specs.Profiling.{profile_answer, Profiles};
    ghost use Rattle.solver.specs.Outcomes.{outcome_case};
    ghost use Rattle.receiver.specs.Contents.{left_by, with_note, with_row, with_run, emptied};
    ghost use Rattle.receiver.specs.Contents.{run_of, rows_under_notes, state_after};
    ghost use Rattle.receiver.specs.Answers.{undisputed, answer_to_note, order_of_note};
    ghost use Rattle.receiver.specs.Answers.{answer_to_take, order_of_take};
    ghost use Rattle.receiver.specs.Answers.{answer_to_settle, order_of_settle, answer_to_clear};
    ghost use Rattle.receiver.specs.Settlements.{settlement_case, IsWhole};
    ghost use Rattle.receiver.specs.Uses.{note_call, take_call, settle_call, clear_call};
    ghost use Rattle.solver.specs.Laws.{Gave};
    ghost use Rattle.receiver.specs.Laws.{KeepsSafe, StaysSafe, LeavesOne, RunTold};
    ghost use Rattle.receiver.specs.Blocks.{contents};

    // Refuses in a dispute (1).
    fn undisputed(&self) -> Result<(), Refusal>
        ensures { numbered result ≡ undisputed (contents self.now) }
    {
        match self.state {
            State::Disputed(_) => Err(Refusal::Disputed),
            _ => Ok(()),
        }
    }

    // Removes all rows and notes, and gathers.
    fn remove_all(&mut self)
        ensures { contents self.new ≡ emptied (contents self.old) }
    {
        self.noted.clear_rows();
        self.noted.clear_notes();
        self.state = State::Gathering;
    }

    // The state after a run that ended so and found this.
    fn found(&self, outcome: Outcome, findings: &Findings) -> State
        ensures { let x = choice findings.now.minutes in let u = choice findings.now.blame in
            result ≡ state_after (contents self.now).codes (outcome_case outcome) x u }
    {
        match outcome {
            Outcome::Solved(_) => {
                let mut minutes = findings.minutes;
                self.noted.put_in(&mut minutes);
                State::Settled(minutes)
            }
            Outcome::Contradiction(_) => State::Disputed(Dispute {
                blame: findings.blame,
                slip_out: false,
            }),
            Outcome::Failed(_) => State::Gathering,
        }
    }

    /// Notes a code for a minute, and gathers. Refuses in a dispute (1), then a minute not below
    /// the width (2), then a code not below the field's size (3), then a minute that is noted (4).
    pub fn note(&mut self, minute: usize, code: u16) -> Result<(), Refusal>
        ensures answer { numbered result ≡ answer_to_note F.ops (contents self.old) minute code }
        ensures order { let order = order_of_note F.ops (contents self.old) minute code in
            KeepsOrder order (numbered result) }
        ensures contents { let b = contents self.old in
            contents self.new ≡ left_by result (with_note b minute code) b }
        ensures law { let call = note_call minute code (numbered result) in
            KeepsSafe F.ops call (contents self.old) (contents self.new) }
    {
        self.undisputed()?;
        self.noted.note(minute, code)?;
        self.state = State::Gathering;
        Ok(())
    }

    /// Takes a frame as the ledger's last row, whose number it returns, and gathers. Refuses in a
    /// dispute (1), then the first term whose minute is not below the width (2, at that term), then
    /// the first weight that is not below the field's size (3, at its term; a sum counts as the
    /// term after the last), then a full ledger (5).
    pub fn take(&mut self, frame: &Frame<'_>) -> Result<usize, Refusal>
        ensures answer { numbered result
            ≡ answer_to_take F.ops (contents self.old) (row_of frame.now) }
        ensures order { let order = order_of_take F.ops (contents self.old) (row_of frame.now) in
            KeepsOrder order (numbered result) }
        ensures contents { let b = contents self.old in
            contents self.new ≡ left_by result (with_row b (row_of frame.now)) b }
        ensures law { let call = take_call (row_of frame.now) (numbered result) in
            KeepsSafe F.ops call (contents self.old) (contents self.new) }
    {
        self.undisputed()?;
        if let Some(term) = first_beyond(frame, self.noted.width()) {
            return Err(Refusal::MinuteBeyondWidth(term));
        }
        if let Some(term) = first_no_code::<F>(frame) {
            return Err(Refusal::NoCode(term));
        }
        let row = self.noted.take(frame)?;
        self.state = State::Gathering;
        Ok(row)
    }

    /// Settles the rows under the notes with a scout, and tells how that ended: settled where the
    /// run is solved, disputed on a contradiction, gathering where it failed. Where a solved one is
    /// whole, no other choice fits what was noted and taken. Refuses in a dispute (1), then a work
    /// space under 8192 words (6), and then changes nothing, the scout included. What an accepted
    /// call leaves in the work space is left free.
    pub fn settle<S: Scout<F>>(
        &mut self,
        scout: &mut S,
        work: &mut [u16],
    ) -> Result<Settlement, Refusal>
        ensures answer { let b = contents self.old in
            let run = run_of F.ops b S.meaning scout.old in
            numbered_as settlement_case result
            ≡ answer_to_settle b (length work.old) run.outcome }
        ensures order { let order = order_of_settle (contents self.old) (length work.old) in
            KeepsOrder order (numbered_as settlement_case result) }
        ensures contents { let b = contents self.old in
            let run = run_of F.ops b S.meaning scout.old in
            contents self.new ≡ left_by result (with_run b run) b }
        ensures scout { let run = run_of F.ops (contents self.old) S.meaning scout.old in
            scout.new ≡ left_by result run.scout scout.old }
        ensures work { OnErr result (work.new ≡ work.old) }
        ensures run { IfOk result (λ _. RunTold F.ops (contents self.old) S.meaning scout.old) }
        ensures gave { let b = contents self.old in
            let run = run_of F.ops b S.meaning scout.old in
            IfOk result (λ _.
            Gave (rows_under_notes F.ops b) S.meaning scout.old run.exchanges scout.new) }
        ensures law { let run = run_of F.ops (contents self.old) S.meaning scout.old in
            let asked = left_by result run.exchanges [] in
            let call = settle_call asked (numbered_as settlement_case result) in
            KeepsSafe F.ops call (contents self.old) (contents self.new) }
        ensures whole { IfOk result (λ settlement. IsWhole (settlement_case settlement) →
            LeavesOne F.ops (contents self.old) (contents self.new)) }
    {
        self.undisputed()?;
        let mut findings = Findings::new();
        let outcome = settle::<F, Noted<F, L>, S>(&self.noted, scout, work, &mut findings)?;
        self.state = self.found(outcome, &findings);
        Ok(Settlement::of(outcome, self.noted.noted_count(), self.noted.width()))
    }

    /// Removes all rows and notes, and gathers. Refuses in a dispute (1).
    pub fn clear(&mut self) -> Result<(), Refusal>
        ensures answer { numbered result ≡ answer_to_clear (contents self.old) }
        ensures contents { let b = contents self.old in
            contents self.new ≡ left_by result (emptied b) b }
        ensures law { let call = clear_call (numbered result) in
            KeepsSafe F.ops call (contents self.old) (contents self.new) }
    {
        self.undisputed()?;
        self.remove_all();
        Ok(())
    }

    /// Writes the row rank profile of the rows under the notes to the head of a list, and returns
    /// how many rows it has. Refuses a work space under 8192 words or a list under 96 (6), and then
    /// changes nothing. What an accepted call leaves in the work space is left free.
    pub fn profile(&self, work: &mut [u16], list: &mut [u16]) -> Result<usize, Refusal>
        ensures answer { refusal_only result ≡ profile_answer (length work.old) (length list.old) }
        ensures profiles { IfOk result
            (Profiles F.ops (rows_under_notes F.ops (contents self.now)) list.old list.new) }
        ensures work { OnErr result (work.new ≡ work.old) }
        ensures list { OnErr result (list.new ≡ list.old) }
        ensures law { StaysSafe F.ops (contents self.now) }
    {
        profile::<F, Noted<F, L>>(&self.noted, work, list)
    }
}

/// A dispute and its slip.
impl<F: Field, L: Ledger> Block<F, L> {
    ghost use Rattle.std.specs.Prelude.{◌≡◌, true, false, IfOk, IfErr};
    ghost use Rattle.frame.specs.Refusals.{numbered, numbered_as, refusal_only};
    ghost use Rattle.frame.specs.Orders.{KeepsOrder};
    ghost use Rattle.receiver.specs.declared.stages.State.TheVariants.{Disputed};
    ghost use Rattle.receiver.specs.Contents.{left_by, handed_out, taken_back, without_row, emptied};
    ghost use Rattle.receiver.specs.Answers.{answer_to_slip, answer_with_slip, answer_to_strike};
    ghost use Rattle.receiver.specs.Answers.{order_of_strike};
    ghost use Rattle.receiver.specs.Slips.{slip_name, IsSpent, unspent_numbered};
    ghost use Rattle.receiver.specs.Uses.{slip_call, strike_call, give_back_call, abandon_call};
    ghost use Rattle.receiver.specs.Laws.{KeepsSafe};
    ghost use Rattle.receiver.specs.Blocks.{contents};

    /// The one slip of a dispute, which bears the block's name. Refuses without a dispute, and with
    /// the slip out (7).
    pub fn slip(&mut self) -> Result<Slip, Refusal>
        ensures answer { numbered_as slip_name result ≡ answer_to_slip (contents self.old) }
        ensures unspent { IfOk result (λ slip. ¬ IsSpent slip) }
        ensures contents { let b = contents self.old in
            contents self.new ≡ left_by result (handed_out b) b }
        ensures law { let call = slip_call (numbered_as slip_name result) in
            KeepsSafe F.ops call (contents self.old) (contents self.new) }
    {
        let mut dispute = self.state.dispute_to_slip()?;
        dispute.slip_out = true;
        self.state = State::Disputed(dispute);
        Ok(Slip::new(self.name))
    }

    // The dispute whose slip this is. Refuses another name, and with no slip out (8).
    fn dispute_of(&self, slip: &Slip) -> Result<Dispute, Refusal>
        ensures answer { refusal_only result
            ≡ answer_with_slip (contents self.now) (slip_name slip.now) }
        ensures dispute { IfOk result (λ dispute. (contents self.now).state ≡ Disputed dispute) }
    {
        match self.state {
            State::Disputed(dispute) if dispute.slip_out && slip.name() == self.name => Ok(dispute),
            _ => Err(Refusal::WrongSlip),
        }
    }

    // Makes a row empty by this slip, and gathers. Refuses as `strike`.
    fn strike_by(&mut self, slip: &Slip, row: usize) -> Result<(), Refusal>
        ensures answer { numbered result
            ≡ answer_to_strike (contents self.old) (slip_name slip.now) row }
        ensures contents { let b = contents self.old in
            contents self.new ≡ left_by result (without_row b row) b }
    {
        self.dispute_of(slip)?;
        if self.blame(row).unwrap_or(0) == 0 {
            return Err(Refusal::NoSuchRow);
        }
        self.noted.strike(row)?;
        self.state = State::Gathering;
        Ok(())
    }

    // Takes the slip back, and leaves the dispute. Refuses as `give_back`.
    fn give_back_by(&mut self, slip: &Slip) -> Result<(), Refusal>
        ensures answer { numbered result
            ≡ answer_with_slip (contents self.old) (slip_name slip.now) }
        ensures contents { let b = contents self.old in
            contents self.new ≡ left_by result (taken_back b) b }
    {
        let mut dispute = self.dispute_of(slip)?;
        dispute.slip_out = false;
        self.state = State::Disputed(dispute);
        Ok(())
    }

    // Removes all rows and notes by this slip, and gathers. Refuses as `abandon`.
    fn abandon_by(&mut self, slip: &Slip) -> Result<(), Refusal>
        ensures answer { numbered result
            ≡ answer_with_slip (contents self.old) (slip_name slip.now) }
        ensures contents { let b = contents self.old in
            contents self.new ≡ left_by result (emptied b) b }
    {
        self.dispute_of(slip)?;
        self.remove_all();
        Ok(())
    }

    /// Spends the slip: makes a blamed row empty, and gathers; notes and other rows stay. Refuses a
    /// slip of another name, or with none out (8), then a row that does not exist or is not blamed
    /// (9); a refusal hands the slip back.
    pub fn strike(&mut self, slip: Slip, row: usize) -> Result<(), Unspent>
        ensures answer { unspent_numbered result
            ≡ answer_to_strike (contents self.old) (slip_name slip) row }
        ensures order { let order = order_of_strike (contents self.old) (slip_name slip) row in
            KeepsOrder order (unspent_numbered result) }
        ensures slip { IfErr result (λ unspent. unspent.slip ≡ slip) }
        ensures contents { let b = contents self.old in
            contents self.new ≡ left_by result (without_row b row) b }
        ensures law { let call = strike_call (slip_name slip) row (unspent_numbered result) in
            KeepsSafe F.ops call (contents self.old) (contents self.new) }
    {
        let answer = self.strike_by(&slip, row);
        slip.spend_on(answer)
    }

    /// Spends the slip: takes it back, and leaves the dispute. Refuses a slip of another name, or
    /// with none out (8); a refusal hands the slip back.
    pub fn give_back(&mut self, slip: Slip) -> Result<(), Unspent>
        ensures answer { unspent_numbered result
            ≡ answer_with_slip (contents self.old) (slip_name slip) }
        ensures slip { IfErr result (λ unspent. unspent.slip ≡ slip) }
        ensures contents { let b = contents self.old in
            contents self.new ≡ left_by result (taken_back b) b }
        ensures law { let call = give_back_call (slip_name slip) (unspent_numbered result) in
            KeepsSafe F.ops call (contents self.old) (contents self.new) }
    {
        let answer = self.give_back_by(&slip);
        slip.spend_on(answer)
    }

    /// Spends the slip: removes all rows and notes, and gathers. Refuses a slip of another name, or
    /// with none out (8); a refusal hands the slip back.
    pub fn abandon(&mut self, slip: Slip) -> Result<(), Unspent>
        ensures answer { unspent_numbered result
            ≡ answer_with_slip (contents self.old) (slip_name slip) }
        ensures slip { IfErr result (λ unspent. unspent.slip ≡ slip) }
        ensures contents { let b = contents self.old in
            contents self.new ≡ left_by result (emptied b) b }
        ensures law { let call = abandon_call (slip_name slip) (unspent_numbered result) in
            KeepsSafe F.ops call (contents self.old) (contents self.new) }
    {
        let answer = self.abandon_by(&slip);
        slip.spend_on(answer)
    }
}
