//! A frame that owns its terms.
ghost use Rattle.std.specs.Prelude.{◌≡◌, ◌<◌, ◌≤◌, length, take};
ghost use Rattle.frame.specs.declared.checks.TheConstants.{MOST_TERMS};
ghost use Rattle.frame.specs.Frames.{FrameTerms, FrameTerms-prop};

use super::checks::MOST_TERMS;
use super::frames::Frame;
use super::terms::Term;

/// A frame's sum and its terms, in memory of its own: the first `count` of `terms`.
// An array and a count: with a vector of fixed capacity the type would lose `Copy`, which it
// promises.
#[derive(Clone, Copy)]
pub struct FrameBuf {
    sum: u16,
    count: usize,
    terms: [Term; MOST_TERMS],
    ghost word: { sum < 65536 },
    ghost room: { length terms ≡ MOST_TERMS },
    ghost few: { count ≤ MOST_TERMS },
    ghost frame: { FrameTerms (take count terms) } by { FrameTerms-prop (take count terms) },
}

/// A copy of a frame: its sum and its terms.
impl<'a> From<&Frame<'a>> for FrameBuf {
    ghost use Rattle.std.specs.Prelude.{◌≡◌};
    ghost use Rattle.frame.specs.Parts.{sum_of, terms_of};
    ghost use Rattle.frame.specs.Owned.{sum_in, terms_in};

    ghost from_gives = { λ frame held.
        (sum_in held ≡ sum_of frame.now) × (terms_in held ≡ terms_of frame.now) };

    fn from(frame: &Frame<'a>) -> FrameBuf {
        let mut terms = [Term::default(); MOST_TERMS];
        terms[..frame.count()].copy_from_slice(frame.terms());
        FrameBuf {
            sum: frame.sum(),
            count: frame.count(),
            terms,
        }
    }
}

impl FrameBuf {
    ghost use Rattle.std.specs.Prelude.{◌≡◌};
    ghost use Rattle.frame.specs.Parts.{sum_of, terms_of};
    ghost use Rattle.frame.specs.Owned.{sum_in, terms_in};

    /// The frame, over the terms held here.
    pub fn frame(&self) -> Frame<'_>
        ensures sums { sum_of result ≡ sum_in self.now }
        ensures holds { terms_of result ≡ terms_in self.now }
    {
        Frame::new(self.sum, &self.terms[..self.count])
    }
}
