//! The writer of a frame's line.
ghost use Rattle.std.specs.Prelude.{◌∷◌, length};
ghost use Rattle.frame.specs.Parts.{sum_of, terms_of};
ghost use Rattle.lines.specs.Appending.{Room, Puts};
ghost use Rattle.lines.specs.Frames.{line_of};
ghost use Rattle.lines.specs.Writing.{terms_text, Appends, OneLine};

use super::reading::MOST_BYTES;
use frame::frames::Frame;
use frame::terms::Term;
use itoa::{Buffer, Integer};
use std::alloc::AllocError;

// A line is written where it is to stand, and room for it is made before: in a string of its own, copied at the end, short
// lines take up to a third longer.

// Appends bytes for which there is room.
#[inline(always)]
pub(crate) fn put(out: &mut Vec<u8>, bytes: &[u8])
    requires { Room out.old (length bytes.now) }
    ensures { Puts out.old out.new bytes.now }
{
    for byte in bytes {
        out.push_reserved(*byte);
    }
}

// Appends a comma and the decimal of n, in line, since each number of a frame comes here.
#[inline(always)]
pub(crate) fn put_field<I: Integer>(out: &mut Vec<u8>, n: I)
    requires { Room out.old (length (44 ∷ I.text n)) }
    ensures { Puts out.old out.new (44 ∷ I.text n) }
{
    out.push_reserved(b',');
    put(out, Buffer::new().format(n).as_bytes());
}

// Appends each term's minute and weight.
fn put_terms(out: &mut Vec<u8>, terms: &[Term])
    requires { Room out.old (length (terms_text terms.now)) }
    ensures { Puts out.old out.new (terms_text terms.now) }
{
    for term in terms {
        put_field(out, term.minute);
        put_field(out, term.weight);
    }
}

// Appends the line of a frame. Not by `Display`, which misses the bar of speed: by `write!` framecheck takes 1.58 times plain
// Rust's time, over its bar of 1.5.
pub(crate) fn put_frame(out: &mut Vec<u8>, frame: &Frame<'_>)
    requires { Room out.old (length (line_of (sum_of frame.now) (terms_of frame.now))) }
    ensures { Puts out.old out.new (line_of (sum_of frame.now) (terms_of frame.now)) }
{
    out.push_reserved(b'F');
    put_field(out, frame.sum());
    put_terms(out, frame.terms());
}

// Appends the line of a frame; for want of memory it appends nothing.
pub fn write_frame(out: &mut Vec<u8>, frame: &Frame<'_>) -> Result<(), AllocError>
    ensures value { Appends out.old out.new (line_of (sum_of frame.now) (terms_of frame.now)) 256 result }
    ensures exact { OneLine (sum_of frame.now) (terms_of frame.now) }
{
    out.reserve(MOST_BYTES)?;
    put_frame(out, frame);
    Ok(())
}
