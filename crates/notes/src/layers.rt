//! Rows under noted minutes.
ghost use Rattle.notes.specs.Notes.{NotesFit};
ghost use Rattle.notes.specs.Lemmas.Fits.{NotesFit-prop};

use crate::notes::Notes;
use field::fields::{Field, is_code};
use frame::frames::Frame;
use frame::refusals::Refusal;
use frame::terms::Term;
use rows::ledgers::Ledger;
use rows::reading::Rows;
use rows::terms::terms;
use rows::values::row_value;
use std::marker::PhantomData;

/// Rows, some minutes of which are noted. As rows, they are those below without the terms at noted
/// minutes; each sum is less by what these terms add up to at the noted codes, and is a code.
#[derive(Drop)]
pub struct Noted<F: Field, R: Rows> {
    notes: Notes,
    below: R,
    field: PhantomData<F>,
    ghost fits: { NotesFit F.ops (R.system below).width notes.codes } by { NotesFit-prop },
}

impl<F: Field, R: Rows> Noted<F, R> {
    ghost use Rattle.std.specs.Prelude.{◌≡◌, ℕ, ◌≤◌, ◌↔◌, length};
    ghost use Rattle.std.specs.Option.{OnSome};
    ghost use Rattle.field.specs.Slices.{Filled};
    ghost use Rattle.frame.specs.Refusals.{numbered};
    ghost use Rattle.frame.specs.Orders.{KeepsOrder};
    ghost use Rattle.rows.specs.Columns.{ZeroColumn};
    ghost use Rattle.rows.specs.Values.{choice, SatisfiesAll};
    ghost use Rattle.notes.specs.Notes.{NotesFit, no_codes, note_answer, note_order, after_note};
    ghost use Rattle.notes.specs.Notes.{noted_code, noted_count, NotesComplete};
    ghost use Rattle.notes.specs.Notes.{put_in, SatisfiedUnder};
    ghost use Rattle.notes.specs.Layers.{codes_in, below, system_below, system_noted};

    /// The rows, with no minute noted.
    pub fn new(rows: R) -> Noted<F, R>
        ensures codes { codes_in result ≡ no_codes }
        ensures below { below result ≡ rows }
    {
        Noted {
            notes: Notes::new(),
            below: rows,
            field: PhantomData,
        }
    }

    /// The rows below, for reading.
    pub fn below(&self) -> &R
        ensures { result.now ≡ below self.now }
    {
        &self.below
    }

    /// The rows below; the notes are gone.
    pub fn into_below(self) -> R
        ensures { result ≡ below self }
    {
        self.below
    }

    /// Notes a code for a minute. Refuses a minute not below the width (2), then a code not below
    /// the field's size (3), then a minute that is noted (4); a refusal leaves the notes as they
    /// were.
    pub fn note(&mut self, minute: usize, code: u16) -> Result<(), Refusal>
        ensures answer { let width = (system_below self.old).width in
            numbered result ≡ note_answer F.ops width (codes_in self.old) minute code }
        ensures order { let width = (system_below self.old).width in
            let order = note_order F.ops width (codes_in self.old) minute code in
            KeepsOrder order (numbered result) }
        ensures codes { codes_in self.new ≡ after_note result (codes_in self.old) minute code }
        ensures below { below self.new ≡ below self.old }
    {
        if minute >= self.below.width() {
            return Err(Refusal::MinuteBeyondWidth(0));
        }
        if !is_code::<F>(code) {
            return Err(Refusal::NoCode(0));
        }
        if self.notes.get(minute).is_some() {
            return Err(Refusal::MinuteNoted);
        }
        self.notes.set(minute, code);
        Ok(())
    }

    /// Removes all notes.
    pub fn clear_notes(&mut self)
        ensures codes { codes_in self.new ≡ no_codes }
        ensures below { below self.new ≡ below self.old }
    {
        self.notes = Notes::new();
    }

    /// The noted code of a minute; none where none is noted. What is noted are codes, at minutes
    /// below the width. Under the notes a noted minute's weight is 0 in every row.
    pub fn noted_code(&self, minute: usize) -> Option<u16>
        ensures code { result ≡ noted_code (codes_in self.now) minute }
        ensures fits { NotesFit F.ops (system_below self.now).width (codes_in self.now) }
        ensures column { OnSome result (ZeroColumn F.ops (system_noted self.now) minute) }
    {
        self.notes.get(minute)
    }

    /// How many minutes are noted, at most the width. Where different columns, none of them 0,
    /// determine a choice under the notes, and they and this count add up to the width, no other
    /// choice than this one, with the noted codes put in, has the noted codes and satisfies the
    /// rows below.
    pub fn noted_count(&self) -> usize
        ensures count { result ≡ noted_count (codes_in self.now) }
        ensures at_most { result ≤ (system_below self.now).width }
        ensures whole { NotesComplete F.ops (codes_in self.now) (system_below self.now) }
    {
        self.notes.count()
    }

    /// Puts the noted codes into a choice of minutes, as far as x reaches. Where x has all minutes,
    /// it satisfies the rows below afterwards just where it satisfied the rows under the notes
    /// before; the law says the same of every choice.
    pub fn put_in(&self, x: &mut [u16])
        ensures codes { let codes = put_in (codes_in self.now) (choice x.old) in
            Filled (length x.old) codes x.old x.new }
        ensures satisfies { (system_below self.now).width ≤ length x.old →
            SatisfiesAll F.ops (system_noted self.now) (choice x.old) ↔
            SatisfiesAll F.ops (system_below self.now) (choice x.new) }
        ensures law { (y : ℕ → ℕ) →
            SatisfiedUnder F.ops (codes_in self.now) (system_below self.now) y }
    {
        for (minute, place) in x.iter_mut().enumerate() {
            if let Some(code) = self.notes.get(minute) {
                *place = code;
            }
        }
    }
}

/// The calls of a ledger below. The notes stay.
impl<F: Field, L: Ledger> Noted<F, L> {
    ghost use Rattle.std.specs.Prelude.{◌≡◌};
    ghost use Rattle.frame.specs.Refusals.{numbered};
    ghost use Rattle.frame.specs.Orders.{KeepsOrder};
    ghost use Rattle.frame.specs.Parts.{terms_of};
    ghost use Rattle.rows.specs.Ledgers.{row_of, take_answer, take_order, after_take};
    ghost use Rattle.rows.specs.Ledgers.{strike_answer, after_strike, cleared};
    ghost use Rattle.rows.specs.Values.{OthersSatisfied};
    ghost use Rattle.notes.specs.Notes.{row_under};
    ghost use Rattle.notes.specs.Layers.{codes_in, below, system_below, system_noted};

    /// Takes a frame as the ledger below does, and returns its row's number. Refuses the first term
    /// whose minute is not below the width (2, at that term), then a full ledger (5); a refusal
    /// leaves the rows as they were. The row shown is the frame's under the notes.
    pub fn take(&mut self, frame: &Frame<'_>) -> Result<usize, Refusal>
        ensures answer { let limit = L.most (below self.old) in
            numbered result ≡ take_answer (system_below self.old) limit (row_of frame.now) }
        ensures order { let limit = L.most (below self.old) in
            let order = take_order (system_below self.old) limit (terms_of frame.now) in
            KeepsOrder order (numbered result) }
        ensures after { let row = row_of frame.now in
            system_below self.new ≡ after_take result (system_below self.old) row }
        ensures shown { let row = row_under F.ops (codes_in self.old) (row_of frame.now) in
            system_noted self.new ≡ after_take result (system_noted self.old) row }
        ensures kept { L.most (below self.new) ≡ L.most (below self.old) }
        ensures limits { L.limits (below self.new) ≡ L.limits (below self.old) }
        ensures codes { codes_in self.new ≡ codes_in self.old }
    {
        self.below.take(frame)
    }

    /// Makes a row empty as the ledger below does. Refuses a row that does not exist (9), and then
    /// leaves the rows as they were. The row shown is empty too, and each choice of minutes
    /// satisfies another row shown just where it did.
    pub fn strike(&mut self, row: usize) -> Result<(), Refusal>
        ensures answer { numbered result ≡ strike_answer (system_below self.old) row }
        ensures after { system_below self.new ≡ after_strike result (system_below self.old) row }
        ensures shown { system_noted self.new ≡ after_strike result (system_noted self.old) row }
        ensures others { OthersSatisfied (system_noted self.old) (system_noted self.new) row }
        ensures kept { L.most (below self.new) ≡ L.most (below self.old) }
        ensures limits { L.limits (below self.new) ≡ L.limits (below self.old) }
        ensures codes { codes_in self.new ≡ codes_in self.old }
    {
        self.below.strike(row)
    }

    /// Removes all rows.
    pub fn clear_rows(&mut self)
        ensures after { system_below self.new ≡ cleared (system_below self.old) }
        ensures shown { system_noted self.new ≡ cleared (system_noted self.old) }
        ensures kept { L.most (below self.new) ≡ L.most (below self.old) }
        ensures limits { L.limits (below self.new) ≡ L.limits (below self.old) }
        ensures codes { codes_in self.new ≡ codes_in self.old }
    {
        self.below.clear();
    }
}

// The rows under the notes.
impl<F: Field, R: Rows> Rows for Noted<F, R> {
    ghost use Rattle.notes.specs.Layers.{codes_in, below, system_noted};
    ghost use Rattle.notes.specs.Lemmas.Under.{system_under_formed};

    ghost system = { system_noted };

    ghost formed = { λ noted. let rows = below noted in
        system_under_formed F.ops (codes_in noted) F.laws (R.system rows) (R.formed rows) };

    fn width(&self) -> usize {
        self.below.width()
    }

    fn row_count(&self) -> usize {
        self.below.row_count()
    }

    fn term_count(&self, row: usize) -> Option<usize> {
        // The closure borrows the notes and not the whole layer.
        let notes = &self.notes;
        let open = terms(&self.below, row)?.filter(|term| notes.is_open(term.minute));
        Some(open.count())
    }

    fn term(&self, row: usize, number: usize) -> Option<Term> {
        // As above.
        let notes = &self.notes;
        let mut open = terms(&self.below, row)?.filter(|term| notes.is_open(term.minute));
        open.nth(number)
    }

    fn sum(&self, row: usize) -> Option<u16> {
        row_value::<F, R, Notes>(&self.below, row, &self.notes)
    }
}
