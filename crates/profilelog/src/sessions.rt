//! What answers the lines: the hour that they open and fill.
ghost use Rattle.std.specs.Prelude.{◌≡◌, None};
ghost use Rattle.std.specs.Option.{option_map};
ghost use Rattle.frame.specs.Refusals.{numbered, numbered_as};
ghost use Rattle.lines.specs.Entries.{said};
ghost use Rattle.lines.specs.Kinds.{line_kind};
ghost use Rattle.rows.specs.Ledgers.{row_of};
ghost use Rattle.profilelog.specs.Laws.{SessionLaws};
ghost use Rattle.profilelog.specs.Sessions.{in_turn, heard, open_answer, after_open, frame_answer, after_frame, line_answer, after_line, session_machine, knows_fronts};

use super::hours::Hour;
use frame::frames::Frame;
use frame::refusals::Refusal;
use framelog::answerers::Answerer;
use lines::answers::write_answer;
use lines::entries::{Entry, read_entry};
use lines::kinds::LineKind;
use lines::openings::Opening;
use lines::reading::{MOST_BYTES, line_kind};
use std::alloc::AllocError;
use std::marker::Model;

/// The lines so far: the hour that they opened, once one did.
#[derive(Drop)]
pub struct Session {
    hour: Option<Hour>,
}

// Contracts see a session as that hour.
impl Model for Session {
    ghost use Rattle.std.specs.Prelude.{Option};
    ghost use Rattle.profilelog.specs.Hours.{OpenHour};

    ghost Value = { Option OpenHour };

    ghost view = { λ session. session.hour };
}

impl Session {
    /// No hour is open.
    pub fn new() -> Session
        ensures { result ≡ None }
    {
        Session { hour: None }
    }

    /// The hour that is open; none before a line opened one.
    pub fn hour(&self) -> Option<&Hour>
        ensures { option_map (λ hour. hour.now) result ≡ self.now }
    {
        self.hour.as_ref()
    }

    // Whether a line of this kind is in turn: an hour is opened once, and frames come behind.
    fn in_turn(&self, kind: LineKind) -> bool
        ensures { result ≡ in_turn self.now kind }
    {
        match kind {
            LineKind::Open => self.hour.is_none(),
            LineKind::Frame => self.hour.is_some(),
        }
    }

    // What a line of this kind says in its turn. Out of turn it is refused (13), whatever it says.
    fn hear(&self, kind: Option<LineKind>, line: &[u8]) -> Result<Entry, Refusal>
        requires { kind ≡ line_kind line.now }
        ensures { numbered_as said result ≡ heard self.now line.now }
    {
        match kind {
            Some(kind) if self.in_turn(kind) => read_entry(line),
            _ => Err(Refusal::UnknownLine),
        }
    }

    // Opens an hour and returns its width.
    fn open(&mut self, opening: Opening) -> Result<usize, Refusal>
        ensures answer { numbered result ≡ open_answer opening }
        ensures after { self.new ≡ after_open self.old opening }
    {
        let hour = Hour::open(opening)?;
        let width = hour.width();
        self.hour = Some(hour);
        Ok(width)
    }

    // Takes a frame into the hour and returns its row's number.
    fn take(&mut self, frame: &Frame<'_>) -> Result<usize, Refusal>
        ensures answer { numbered result ≡ frame_answer self.old (row_of frame.now) }
        ensures after { self.new ≡ after_frame self.old (row_of frame.now) }
    {
        self.hour.as_mut().ok_or(Refusal::UnknownLine)?.take(frame)
    }

    // Does what a line of this kind says, and returns the number that its answer has.
    fn take_line(&mut self, kind: Option<LineKind>, line: &[u8]) -> Result<usize, Refusal>
        requires { kind ≡ line_kind line.now }
        ensures answer { numbered result ≡ line_answer self.old line.now }
        ensures after { self.new ≡ after_line self.old line.now }
    {
        match self.hear(kind, line)? {
            Entry::Open(opening) => self.open(opening),
            Entry::Frame(frame) => self.take(&frame.frame()),
        }
    }
}

/// Which lines are accepted, and what they leave.
pub fn session_laws()
    ensures { SessionLaws }
{}

impl Answerer for Session {
    ghost machine = { session_machine };

    ghost fronts = { knows_fronts };

    // There is room for the answer before the line is taken, so that nothing is taken without an
    // answer.
    fn answer(&mut self, out: &mut Vec<u8>, line: &[u8]) -> Result<(), AllocError> {
        out.reserve(MOST_BYTES + 1)?;
        let kind = line_kind(line);
        let answer = self.take_line(kind, line);
        write_answer(out, kind, answer)
    }
}
