//! The codes that are noted.
ghost use Rattle.std.specs.Prelude.{◌≡◌, length};
ghost use Rattle.rows.specs.declared.sizes.TheConstants.{MOST_MINUTES};

use rows::sizes::MOST_MINUTES;
use rows::values::Choice;

// Noted codes, one for a minute at most.
#[derive(Clone, Copy)]
pub(crate) struct Notes {
    codes: [Option<u16>; MOST_MINUTES],
    ghost room: { length codes ≡ MOST_MINUTES },
}

impl Notes {
    ghost use Rattle.std.specs.Prelude.{◌≡◌, ◌<◌, slice_set, Some};
    ghost use Rattle.std.specs.Option.{is_none};
    ghost use Rattle.notes.specs.Notes.{noted_code, no_codes, noted_count};

    // Nothing is noted.
    pub(crate) fn new() -> Notes
        ensures { result.codes ≡ no_codes }
    {
        Notes {
            codes: [None; MOST_MINUTES],
        }
    }

    // The code of a minute; none where none is noted.
    pub(crate) fn get(&self, minute: usize) -> Option<u16>
        ensures { result ≡ noted_code self.now.codes minute }
    {
        self.codes.get(minute).copied().flatten()
    }

    // Whether a minute is not noted.
    pub(crate) fn is_open(&self, minute: u16) -> bool
        ensures { result ≡ is_none (noted_code self.now.codes minute) }
    {
        self.get(usize::from(minute)).is_none()
    }

    // How many minutes are noted.
    pub(crate) fn count(&self) -> usize
        ensures { result ≡ noted_count self.now.codes }
    {
        self.codes.iter().filter(|code| code.is_some()).count()
    }

    // Gives a minute its code.
    pub(crate) fn set(&mut self, minute: usize, code: u16)
        requires { minute < MOST_MINUTES }
        ensures { self.new.codes ≡ slice_set self.old.codes minute (Some code) }
    {
        self.codes[minute] = Some(code);
    }
}

// The noted codes alone: elsewhere a code is 0.
impl Choice for Notes {
    ghost use Rattle.notes.specs.Notes.{noted_alone};

    ghost codes = { λ notes. noted_alone notes.codes };

    fn code(&self, minute: u16) -> u16 {
        self.get(usize::from(minute)).unwrap_or(0)
    }
}
