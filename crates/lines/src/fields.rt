//! The fields of a line, one after the other.
ghost use Rattle.std.specs.Prelude.{◌≡◌, length};
ghost use Rattle.std.specs.Iterator.{item_count};
ghost use Rattle.lines.specs.Fields.{split, CutAt, fields_of};
ghost use Rattle.lines.specs.Tokens.{to_come, Next};

use super::parts::part_end;
use super::tokens::Token;

// The fields of a line that are still to come: the next begins at `at`, and none does past the line's end.
// The whole line and an offset, and not the rest alone: a token has its offset in the line.
// No view (`Model`): with a lifetime and a view the type would lose `Copy`, which it promises.
#[derive(Clone, Copy)]
pub struct Fields<'a> {
    line: &'a [u8],
    at: usize,
}

// How many fields a line has: the parts between its commas.
pub fn count_fields(line: &[u8]) -> usize
    ensures value { result ≡ length (fields_of line.now) }
    ensures cut { CutAt 44 line.now (split 44 line.now) }
{
    // In a `for`: by `filter` and `count` it takes a third longer.
    let mut count = 1;
    for byte in line {
        if *byte == b',' {
            count += 1;
        }
    }
    count
}

impl<'a> Fields<'a> {
    pub fn new(line: &'a [u8]) -> Fields<'a>
        ensures { to_come result ≡ fields_of line.now }
    {
        Fields { line, at: 0 }
    }
}

impl<'a> Iterator for Fields<'a> {
    type Item = Token<'a>;

    ghost next_gives = { λ before result after. Next (to_come before) result (to_come after) };

    ghost remaining = { item_count to_come };

    // The next field; none after the last.
    fn next(&mut self) -> Option<Token<'a>> {
        if self.at > self.line.len() {
            return None;
        }
        let from = self.at;
        let end = part_end(self.line, from, b',');
        self.at = end + 1;
        Some(Token::new(&self.line[from..end], from))
    }
}
