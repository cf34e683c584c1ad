//! The check of terms that comes before a frame is made.
ghost use Rattle.std.specs.Prelude.{◌≡◌, ℕ, ◌<◌, length, None};
ghost use Rattle.frame.specs.Frames.{weight_at, first_minute, first_weight, check};
ghost use Rattle.frame.specs.Frames.{frame_order, Decides};
ghost use Rattle.frame.specs.Orders.{KeepsOrder};
ghost use Rattle.frame.specs.Refusals.{numbered};

use super::refusals::Refusal;
use super::terms::Term;

/// A frame holds 1 to MOST_TERMS terms.
pub const MOST_TERMS: usize = 16;

/// A frame's minutes are below MINUTES.
pub const MINUTES: u16 = 64;

// The first term whose minute is over 63, or not over the one before.
fn first_minute(terms: &[Term]) -> Option<usize>
    ensures { result ≡ first_minute 0 0 terms.now }
{
    // In a `for`: no proof follows a closure that changes what it holds, here the lowest minute
    // allowed.
    let mut low = 0;
    for (i, term) in terms.iter().enumerate() {
        if term.minute >= MINUTES || term.minute < low {
            return Some(i);
        }
        low = term.minute + 1;
    }
    None
}

// The first term whose weight is 0.
fn first_weight(terms: &[Term]) -> Option<usize>
    ensures value { result ≡ first_weight 0 terms.now }
    ensures words { result ≡ None → (k : ℕ) → k < length terms.now → weight_at terms.now k < 65536 }
{
    terms.iter().position(|term| term.weight == 0)
}

/// Whether terms make a frame. Refuses no terms or over 16 (10), then the first minute that is over
/// 63 or not over the one before (11, at its term), then the first weight of 0 (12, at its term).
pub fn check_terms(terms: &[Term]) -> Result<(), Refusal>
    ensures answer { numbered result ≡ check terms.now }
    ensures order { KeepsOrder (frame_order terms.now) (numbered result) }
    ensures decides { Decides terms.now (numbered result) }
{
    if terms.is_empty() || terms.len() > MOST_TERMS {
        return Err(Refusal::TermCount);
    }
    if let Some(term) = first_minute(terms) {
        return Err(Refusal::MinuteOrder(term));
    }
    if let Some(term) = first_weight(terms) {
        return Err(Refusal::ZeroWeight(term));
    }
    Ok(())
}
