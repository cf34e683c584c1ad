//! The answers to lines.
ghost use Rattle.std.specs.Prelude.{◌≡◌, ◌≤◌, ◌∷◌, [], ◌++◌, length};
ghost use Rattle.frame.specs.Refusals.{refusal_case, numbered};
ghost use Rattle.lines.specs.Answers.{layer_name, kind_refused, refused_line, accepted_line};
ghost use Rattle.lines.specs.Answers.{answer_line, answer_of, answer_to, Echoes};
ghost use Rattle.lines.specs.Appending.{Room, Puts};
ghost use Rattle.lines.specs.Reading.{read};
ghost use Rattle.lines.specs.Writing.{Appends};

use super::kinds::{LineKind, shown_letter};
use super::reading::{MOST_BYTES, read_frame};
use super::writing::{put, put_field, put_frame};
use frame::refusals::{Layer, Refusal};
use std::alloc::AllocError;

// Not by `Display`, which misses the bar of speed (see `put_frame`).
fn layer_name(layer: Layer) -> &'static str
    ensures value { result.now ≡ layer_name layer }
    ensures short { length result.now ≤ 5 }
{
    match layer {
        Layer::Line => "line",
        Layer::Frame => "frame",
        Layer::Block => "block",
    }
}

// Appends the answer to a refused line, without the byte that ends it. Not by `Display` either.
fn put_refusal(out: &mut Vec<u8>, kind: Option<LineKind>, refusal: Refusal)
    requires { Room out.old 256 }
    ensures puts { Puts out.old out.new (refused_line kind (refusal_case refusal)) }
    ensures short { length (refused_line kind (refusal_case refusal)) ≤ 256 }
{
    out.push_reserved(shown_letter(kind) as u8);
    put(out, b",refused,");
    put(out, layer_name(refusal.layer()).as_bytes());
    put_field(out, refusal.number());
    put_field(out, refusal.place());
}

// Appends the answer to a line that is accepted with a number, likewise.
fn put_accepted(out: &mut Vec<u8>, kind: Option<LineKind>, number: usize)
    requires { Room out.old 256 }
    ensures puts { Puts out.old out.new (accepted_line kind number) }
    ensures short { length (accepted_line kind number) ≤ 256 }
{
    out.push_reserved(shown_letter(kind) as u8);
    put(out, b",ok");
    put_field(out, number);
}

// Appends the byte that ends a line.
fn end_line(out: &mut Vec<u8>)
    requires { Room out.old 1 }
    ensures { Puts out.old out.new (10 ∷ []) }
{
    out.push_reserved(b'\n');
}

// Appends the answer to a line of this kind, which is accepted with a number or refused. For want of memory it appends nothing.
pub fn write_answer(
    out: &mut Vec<u8>,
    kind: Option<LineKind>,
    answer: Result<usize, Refusal>,
) -> Result<(), AllocError>
    ensures { Appends out.old out.new (answer_line kind (numbered answer) ++ 10 ∷ []) 257 result }
{
    out.reserve(MOST_BYTES + 1)?;
    match answer {
        Ok(number) => put_accepted(out, kind, number),
        Err(refusal) => put_refusal(out, kind, refusal),
    }
    end_line(out);
    Ok(())
}

// The kind of a line that a log check refuses: a frame's, or unknown.
fn kind_refused(refusal: Refusal) -> Option<LineKind>
    ensures { result ≡ kind_refused (refusal_case refusal) }
{
    match refusal {
        Refusal::UnknownLine => None,
        _ => Some(LineKind::Frame),
    }
}

// Appends a log check's answer to a line, without the byte that ends it.
fn put_answer(out: &mut Vec<u8>, line: &[u8])
    requires { Room out.old 256 }
    ensures puts { Puts out.old out.new (answer_of (read line.now)) }
    ensures short { length (answer_of (read line.now)) ≤ 256 }
{
    match read_frame(line) {
        Ok(frame) => put_frame(out, &frame.frame()),
        Err(refusal) => put_refusal(out, kind_refused(refusal), refusal),
    }
}

// Appends a log check's answer to a line; for want of memory it appends nothing.
pub fn answer(out: &mut Vec<u8>, line: &[u8]) -> Result<(), AllocError>
    ensures value { Appends out.old out.new (answer_to line.now) 257 result }
    ensures echo { Echoes line.now }
{
    out.reserve(MOST_BYTES + 1)?;
    put_answer(out, line);
    end_line(out);
    Ok(())
}
