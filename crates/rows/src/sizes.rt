//! Sizes that are checked before anything is made of them.
ghost use Rattle.std.specs.Prelude.{◌≤◌};

use frame::refusals::Refusal;

/// A number from 1 to MOST.
// Ghost fields and no view (`Model`): the laws of tables and caps read them off the type.
#[derive(Clone, Copy)]
pub struct Size<const MOST: usize> {
    number: usize,
    ghost some: { 1 ≤ number },
    ghost most: { number ≤ MOST },
}

/// How many minutes an hour can have.
pub const MOST_MINUTES: usize = 64;

/// How many rows there can be.
pub const MOST_ROWS: usize = 96;

/// The number of minutes of an hour.
pub type Width = Size<MOST_MINUTES>;

/// How many rows a ledger takes.
pub type Limit = Size<MOST_ROWS>;

/// The size of this number; refuses one that is not 1 to MOST (16).
impl<const MOST: usize> TryFrom<usize> for Size<MOST> {
    ghost use Rattle.std.specs.Prelude.{◌≡◌};
    ghost use Rattle.frame.specs.Refusals.{numbered_as};
    ghost use Rattle.rows.specs.Sizes.{size_number, size_answer};

    type Error = Refusal;

    ghost try_from_gives = { λ number size.
        numbered_as (size_number MOST) size ≡ size_answer MOST number };

    fn try_from(number: usize) -> Result<Size<MOST>, Refusal> {
        if (1..=MOST).contains(&number) {
            Ok(Size { number })
        } else {
            Err(Refusal::SizeOutOfRange)
        }
    }
}

impl<const MOST: usize> Size<MOST> {
    ghost use Rattle.std.specs.Prelude.{◌≡◌};
    ghost use Rattle.rows.specs.Sizes.{size_number};

    /// The number itself.
    // Named: `usize::from` would not say which number.
    pub fn number(&self) -> usize
        ensures { result ≡ size_number MOST self.now }
    {
        self.number
    }
}
