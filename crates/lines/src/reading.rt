//! The kind of a line, and the reader of a frame's line.
ghost use Rattle.std.specs.Prelude.{◌≡◌, ◌+◌, length, drop};
ghost use Rattle.frame.specs.Refusals.{numbered, numbered_as};
ghost use Rattle.lines.specs.Tokens.{to_come, first_letter};
ghost use Rattle.lines.specs.Kinds.{line_kind};
ghost use Rattle.lines.specs.Reading.{content_of, SplitKind, first_number, ReadsTerms};
ghost use Rattle.lines.specs.Reading.{read_fields, read, ReadsFrame};

use super::fields::{Fields, count_fields};
use super::kinds::LineKind;
use super::tokens::Kind;
use arrayvec::ArrayVec;
use frame::buffers::FrameBuf;
use frame::checks::MOST_TERMS;
use frame::frames::Frame;
use frame::refusals::Refusal;
use frame::terms::Term;

/// A line is at most so many bytes when it is read.
pub const MOST_BYTES: usize = 256;

// The letter that the next field is.
fn read_letter(fields: &mut Fields<'_>) -> Option<char>
    ensures value { result ≡ first_letter (to_come fields.old) }
    ensures rest { to_come fields.new ≡ drop 1 (to_come fields.old) }
{
    match fields.next()?.kind {
        Kind::Letter(letter) => Some(letter),
        Kind::Number(_) | Kind::Word => None,
    }
}

// The kind of a line, and the fields behind its letter; none where the line is too long or its
// letter is unknown.
pub(crate) fn split_kind(line: &[u8]) -> Option<(LineKind, Fields<'_>)>
    ensures { SplitKind line.now result }
{
    if line.len() > MOST_BYTES {
        return None;
    }
    let mut fields = Fields::new(line);
    let kind = LineKind::of(read_letter(&mut fields)?)?;
    Some((kind, fields))
}

/// The kind of a line; none where its letter is unknown, or the line is over 256 bytes. The fields
/// behind the letter do not matter.
pub fn line_kind(line: &[u8]) -> Option<LineKind>
    ensures { result ≡ line_kind line.now }
{
    Some(split_kind(line)?.0)
}

// The number of the next field.
pub(crate) fn read_number(fields: &mut Fields<'_>) -> Result<u16, Refusal>
    ensures value { numbered result ≡ first_number (to_come fields.old) }
    ensures rest { to_come fields.new ≡ drop 1 (to_come fields.old) }
{
    let token = fields.next().ok_or(Refusal::FieldCount)?;
    match token.kind {
        Kind::Number(value) => Ok(value),
        Kind::Letter(_) | Kind::Word => Err(Refusal::BadField(token.at)),
    }
}

// So many terms from the fields to come. A frame has at most sixteen, so no more are kept.
// Fields with their number, here and below: it is counted once for the line, and a struct would
// serve two calls.
fn read_terms(mut fields: Fields<'_>, count: usize) -> Result<ArrayVec<Term, MOST_TERMS>, Refusal>
    requires { length (to_come fields) ≡ count + count }
    ensures { ReadsTerms (to_come fields.entry) count (numbered result) }
{
    let mut terms = ArrayVec::new();
    for _ in 0..count {
        let minute = read_number(&mut fields)?;
        let weight = read_number(&mut fields)?;
        if !terms.is_full() {
            terms.push(Term { minute, weight });
        }
    }
    Ok(terms)
}

// The frame that the fields behind the letter write, of which there are `count`.
pub(crate) fn read_fields(mut fields: Fields<'_>, count: usize) -> Result<FrameBuf, Refusal>
    requires { count ≡ length (to_come fields) }
    ensures { numbered_as content_of result ≡ read_fields (to_come fields.entry) }
{
    if count % 2 == 0 {
        return Err(Refusal::FieldCount);
    }
    let sum = read_number(&mut fields)?;
    let pairs = count / 2;
    let terms = read_terms(fields, pairs)?;
    if pairs > MOST_TERMS {
        return Err(Refusal::TermCount);
    }
    let frame = Frame::check(sum, terms.as_slice())?;
    Ok(FrameBuf::from(&frame))
}

/// The frame that a line carries. Refuses a line over 256 bytes or of another kind (13), then a
/// wrong number of fields (14), then a field that is no number (15) at the offset of its first
/// byte, then terms that make no frame (10 to 12).
pub fn read_frame(line: &[u8]) -> Result<FrameBuf, Refusal>
    ensures value { numbered_as content_of result ≡ read line.now }
    ensures exact { ReadsFrame line.now (numbered_as content_of result) }
{
    let Some((LineKind::Frame, fields)) = split_kind(line) else {
        return Err(Refusal::UnknownLine);
    };
    read_fields(fields, count_fields(line) - 1)
}
