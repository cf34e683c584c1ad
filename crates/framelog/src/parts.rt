//! The parts into which the ends of lines cut a chunk.
ghost use Rattle.std.specs.Prelude.{◌≡◌};
ghost use Rattle.std.specs.Iterator.{item_count};
ghost use Rattle.lines.specs.Fields.{PartEnd};
ghost use Rattle.framelog.specs.Parts.{to_cut, NextPart};

use lines::parts::part_end;

// A part of a line, in which no line ends.
#[derive(Clone, Copy)]
pub enum Part<'a> {
    // the last part of its line, without the byte that ends it
    Ended(&'a [u8]),
    // a part whose line goes on behind the chunk
    Open(&'a [u8]),
}

// The parts of a chunk that are still to come: what is not cut yet.
// By hand: of a loop over `split_inclusive` in a generic function the check has no proof.
#[derive(Clone, Copy)]
pub struct Parts<'a> {
    rest: &'a [u8],
}

// How many bytes are searched at once.
const BLOCK: usize = 64;

// Where the line under way ends: at its byte 10, or where the bytes end. A log may be one long line, so whole blocks without an
// end are passed over first.
fn line_end(bytes: &[u8]) -> usize
    ensures { PartEnd bytes.now 0 10 result }
{
    let mut from = 0;
    while BLOCK < bytes.len() - from && !bytes[from..from + BLOCK].contains(&b'\n') {
        from += BLOCK;
    }
    part_end(bytes, from, b'\n')
}

impl<'a> Parts<'a> {
    pub fn new(chunk: &'a [u8]) -> Parts<'a>
        ensures { to_cut result ≡ chunk.now }
    {
        Parts { rest: chunk }
    }
}

impl<'a> Iterator for Parts<'a> {
    type Item = Part<'a>;

    ghost next_gives = { λ before part after. NextPart (to_cut before) part (to_cut after) };

    ghost remaining = { item_count to_cut };

    // The part up to the next end of a line, or up to the chunk's end; none where nothing is left.
    fn next(&mut self) -> Option<Part<'a>> {
        if self.rest.is_empty() {
            return None;
        }
        let end = line_end(self.rest);
        let (part, behind) = self.rest.split_at(end);
        match behind.split_first() {
            Some((_, rest)) => {
                self.rest = rest;
                Some(Part::Ended(part))
            }
            None => {
                self.rest = behind;
                Some(Part::Open(part))
            }
        }
    }
}
