//! The reader of a line of any kind.
ghost use Rattle.std.specs.Prelude.{◌≡◌};
ghost use Rattle.frame.specs.Refusals.{numbered_as};
ghost use Rattle.lines.specs.Entries.{said, read_entry, ReadsEntry};

use super::fields::count_fields;
use super::kinds::LineKind;
use super::openings::{Opening, read_opening};
use super::reading::{read_fields, split_kind};
use frame::buffers::FrameBuf;
use frame::refusals::Refusal;

/// What a line says, by its kind.
#[derive(Clone, Copy)]
pub enum Entry {
    /// An hour is opened.
    Open(Opening),
    /// A frame.
    Frame(FrameBuf),
}

/// What a line says. Refuses a line over 256 bytes or with an unknown letter (13), then a wrong
/// number of fields (14), then a field that is no number or no name (15) at the offset of its first
/// byte, then terms that make no frame (10 to 12).
pub fn read_entry(line: &[u8]) -> Result<Entry, Refusal>
    ensures value { numbered_as said result ≡ read_entry line.now }
    ensures exact { ReadsEntry line.now (numbered_as said result) }
{
    let (kind, fields) = split_kind(line).ok_or(Refusal::UnknownLine)?;
    let count = count_fields(line) - 1;
    match kind {
        LineKind::Open => Ok(Entry::Open(read_opening(fields, count)?)),
        LineKind::Frame => Ok(Entry::Frame(read_fields(fields, count)?)),
    }
}
