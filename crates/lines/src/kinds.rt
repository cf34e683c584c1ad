//! The kinds of line.
ghost use Rattle.std.specs.Prelude.{◌≡◌, ◌<◌};
ghost use Rattle.lines.specs.Kinds.{kind_letter, kind_of, shown_letter};

// A kind of line, which the line's letter chooses.
#[derive(Clone, Copy, PartialEq, Eq, Debug)]
pub enum LineKind {
    // O: an hour is opened
    Open,
    // F: a frame
    Frame,
}

impl LineKind {
    // The kind of line that a letter begins; none where it begins none.
    pub fn of(letter: char) -> Option<LineKind>
        ensures { result ≡ kind_of letter }
    {
        match letter {
            'O' => Some(LineKind::Open),
            'F' => Some(LineKind::Frame),
            _ => None,
        }
    }

    pub fn letter(self) -> char
        ensures value { result ≡ kind_letter self }
        ensures ascii { result < 128 }
    {
        match self {
            LineKind::Open => 'O',
            LineKind::Frame => 'F',
        }
    }
}

// The letter of an answer: that of the line answered, or a question mark where its kind is unknown.
pub(crate) fn shown_letter(kind: Option<LineKind>) -> char
    ensures value { result ≡ shown_letter kind }
    ensures ascii { result < 128 }
{
    kind.map_or('?', LineKind::letter)
}
