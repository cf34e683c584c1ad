//! The line under way.
ghost use Rattle.std.specs.Prelude.{◌≡◌, ◌≤◌, [], ◌++◌, length, take};

use arrayvec::ArrayVec;
use lines::reading::MOST_BYTES;
use std::marker::Model;

// One byte more than a line may have.
pub const KEPT: usize = MOST_BYTES + 1;

// The bytes of the line under way. Of a long line the first 257 are kept: they show that it is too long.
#[derive(Drop)]
pub struct LineBuffer {
    bytes: ArrayVec<u8, KEPT>,
}

// Contracts see a line buffer as the list of the bytes that it keeps.
impl Model for LineBuffer {
    ghost use Rattle.std.specs.Prelude.{ℕ, List};

    ghost Value = { List ℕ };

    ghost view = { λ b. b.bytes.items };
}

impl LineBuffer {
    pub fn new() -> LineBuffer
        ensures { result ≡ [] }
    {
        LineBuffer {
            bytes: ArrayVec::new(),
        }
    }

    pub fn text(&self) -> &[u8]
        ensures value { result.now ≡ self.now }
        ensures fits { length result.now ≤ 257 }
    {
        &self.bytes
    }

    // Appends a part of the line, as far as its bytes are kept.
    pub fn extend(&mut self, part: &[u8])
        ensures { self.new ≡ take 257 (self.old ++ part.now) }
    {
        let count = self.bytes.remaining_capacity().min(part.len());
        // There is room for so many bytes, so this does not fail.
        self.bytes.try_extend_from_slice(&part[..count]).unwrap();
    }

    pub fn clear(&mut self)
        ensures { self.new ≡ [] }
    {
        self.bytes.clear();
    }
}
