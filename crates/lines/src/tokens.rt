//! A field as a token.
ghost use Rattle.lines.specs.Tokens.{KindOf, TokenOf};

use super::numbers::number;

// What a field says.
#[derive(Clone, Copy, PartialEq, Eq, Debug)]
pub enum Kind {
    // one byte from A to Z
    Letter(char),
    // a decimal number from 0 to 65535 without leading zeros
    Number(u16),
    // any other field, also an empty one
    Word,
}

// A field: its part of the line, the offset of its first byte, and what it says.
#[derive(Clone, Copy, PartialEq, Eq, Debug)]
pub struct Token<'a> {
    pub text: &'a [u8],
    pub at: usize,
    pub kind: Kind,
}

impl Kind {
    // What a field's bytes say.
    fn of(text: &[u8]) -> Kind
        ensures { KindOf text.now result }
    {
        if let Some(value) = number(text) {
            return Kind::Number(value);
        }
        match text {
            [letter @ b'A'..=b'Z'] => Kind::Letter(char::from(*letter)),
            _ => Kind::Word,
        }
    }
}

impl<'a> Token<'a> {
    // The token of a field's bytes, which begin at this offset.
    pub fn new(text: &'a [u8], at: usize) -> Token<'a>
        ensures { TokenOf (record { at = at; text = text.now }) result }
    {
        let kind = Kind::of(text);
        Token { text, at, kind }
    }
}
