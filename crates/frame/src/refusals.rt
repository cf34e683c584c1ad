//! What the receiver refuses, and the number, place and layer that it names then.
ghost use Rattle.std.specs.Prelude.{◌≡◌};
ghost use Rattle.frame.specs.Refusals.{refusal_case, refusal_number, refusal_place, refusal_layer};

/// Which part of the receiver refuses: the line, the frame in it, or what stands behind.
#[derive(Clone, Copy, PartialEq, Eq, Debug)]
pub enum Layer {
    Line,
    Frame,
    Block,
}

/// A refused call: one case for each number, named by what is wrong, with its place where it has
/// one.
#[derive(Clone, Copy, PartialEq, Eq, Debug)]
pub enum Refusal {
    /// 1: the block is disputed
    Disputed,
    /// 2: a minute is not below the width
    MinuteBeyondWidth(usize),
    /// 3: a noted code, a weight or a sum is not below the field's size
    NoCode(usize),
    /// 4: the minute is noted already
    MinuteNoted,
    /// 5: the ledger holds its limit of rows, or more
    LedgerFull,
    /// 6: the work space or the list lent is too short
    SpaceTooShort,
    /// 7: there is no dispute, or its slip is out
    NoSlipToGive,
    /// 8: the slip bears another name, or none is out
    WrongSlip,
    /// 9: there is no such row, or it is not blamed
    NoSuchRow,
    /// 10: no terms, or over 16
    TermCount,
    /// 11: a minute is over 63 or does not rise
    MinuteOrder(usize),
    /// 12: a weight is 0
    ZeroWeight(usize),
    /// 13: the line is too long, or its letter is unknown or out of turn
    UnknownLine,
    /// 14: the line has a wrong number of fields
    FieldCount,
    /// 15: a field is not what has to stand there
    BadField(usize),
    /// 16: a width, a cap or a strip's length is out of range
    SizeOutOfRange,
}

impl Refusal {
    /// Its number in the table of refusals, 1 to 16.
    // Named: `u8::from` would not say which number.
    pub fn number(&self) -> u8
        ensures { result ≡ refusal_number self.now }
    {
        match self {
            Refusal::Disputed => 1,
            Refusal::MinuteBeyondWidth(_) => 2,
            Refusal::NoCode(_) => 3,
            Refusal::MinuteNoted => 4,
            Refusal::LedgerFull => 5,
            Refusal::SpaceTooShort => 6,
            Refusal::NoSlipToGive => 7,
            Refusal::WrongSlip => 8,
            Refusal::NoSuchRow => 9,
            Refusal::TermCount => 10,
            Refusal::MinuteOrder(_) => 11,
            Refusal::ZeroWeight(_) => 12,
            Refusal::UnknownLine => 13,
            Refusal::FieldCount => 14,
            Refusal::BadField(_) => 15,
            Refusal::SizeOutOfRange => 16,
        }
    }

    /// The term or byte that the refusal points at, counted from 0; 0 where it points at none.
    pub fn place(&self) -> usize
        ensures { result ≡ refusal_place self.now }
    {
        match self {
            Refusal::MinuteBeyondWidth(term)
            | Refusal::NoCode(term)
            | Refusal::MinuteOrder(term)
            | Refusal::ZeroWeight(term) => *term,
            Refusal::BadField(byte) => *byte,
            _ => 0,
        }
    }

    /// The part of the receiver that refuses: 13 to 15 are the line's, 10 to 12 the frame's, all
    /// others the block's.
    pub fn layer(&self) -> Layer
        ensures { result ≡ refusal_layer self.now }
    {
        match self {
            Refusal::UnknownLine | Refusal::FieldCount | Refusal::BadField(_) => Layer::Line,
            Refusal::TermCount | Refusal::MinuteOrder(_) | Refusal::ZeroWeight(_) => Layer::Frame,
            _ => Layer::Block,
        }
    }
}

/// A law: no two refusals have the same number and place. The call does nothing.
pub fn refusals_are_told_apart()
    ensures { (a b : Refusal) → refusal_case a ≡ refusal_case b → a ≡ b }
{}
