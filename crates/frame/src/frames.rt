//! A frame: a sum, and the terms that it is the weighted sum of, lent for reading.
ghost use Rattle.std.specs.Prelude.{◌<◌};
ghost use Rattle.frame.specs.Frames.{FrameTerms, FrameTerms-prop};

use super::checks::check_terms;
use super::refusals::Refusal;
use super::terms::Term;

/// A weighted sum of minutes. No value of this type exists whose terms the check refuses.
// Ghost fields and no view (`Model`): with a lifetime and a view the type would lose `Copy`, which
// it promises.
#[derive(Clone, Copy)]
pub struct Frame<'a> {
    sum: u16,
    terms: &'a [Term],
    ghost word: { sum < 65536 },
    ghost frame: { FrameTerms terms.now } by { FrameTerms-prop terms.now },
}

impl<'a> Frame<'a> {
    ghost use Rattle.std.specs.Prelude.{◌≡◌, length, IfOk};
    ghost use Rattle.std.specs.List.{slice_get};
    ghost use Rattle.frame.specs.Refusals.{refusal_only};
    ghost use Rattle.frame.specs.Orders.{KeepsOrder};
    ghost use Rattle.frame.specs.Frames.{FrameTerms, frame_order, check, Decides};
    ghost use Rattle.frame.specs.Parts.{sum_of, terms_of, FrameOf};

    /// The frame of this sum and these terms; refuses what `check_terms` refuses (10, 11 and 12).
    // No `TryFrom`: a pair would lose the names of its parts.
    pub fn check(sum: u16, terms: &'a [Term]) -> Result<Frame<'a>, Refusal>
        ensures answer { refusal_only result ≡ check terms.now }
        ensures order { KeepsOrder (frame_order terms.now) (refusal_only result) }
        ensures decides { Decides terms.now (refusal_only result) }
        ensures frame { IfOk result (FrameOf sum terms.now) }
    {
        check_terms(terms)?;
        Ok(Frame { sum, terms })
    }

    /// The frame of this sum and of terms that the check lets pass.
    // Beside `check`, since it cannot refuse.
    pub fn new(sum: u16, terms: &'a [Term]) -> Frame<'a>
        requires { FrameTerms terms.now }
        ensures sums { sum_of result ≡ sum }
        ensures holds { terms_of result ≡ terms.now }
    {
        Frame { sum, terms }
    }

    /// The sum, any word.
    pub fn sum(&self) -> u16
        ensures { result ≡ sum_of self.now }
    {
        self.sum
    }

    /// All terms, in order.
    pub fn terms(&self) -> &'a [Term]
        ensures { result.now ≡ terms_of self.now }
    {
        self.terms
    }

    /// How many terms it has, 1 to 16.
    pub fn count(&self) -> usize
        ensures { result ≡ length (terms_of self.now) }
    {
        self.terms.len()
    }

    /// The term with this number, counted from 0; none past the end.
    pub fn term(&self, number: usize) -> Option<Term>
        ensures { result ≡ slice_get (terms_of self.now) number }
    {
        self.terms.get(number).copied()
    }
}
