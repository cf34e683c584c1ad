//! The reader of the line that opens an hour.
ghost use Rattle.std.specs.Prelude.{◌≡◌, length, drop};
ghost use Rattle.frame.specs.Refusals.{numbered};
ghost use Rattle.lines.specs.Tokens.{to_come};
ghost use Rattle.lines.specs.Openings.{first_name, read_opening};

use super::fields::Fields;
use super::reading::read_number;
use super::tokens::Kind;
use frame::refusals::Refusal;

/// The field to calculate in, by its name.
#[derive(Clone, Copy, PartialEq, Eq, Debug)]
pub enum FieldName {
    /// P: the integers modulo 65521.
    Prime,
    /// B: the octets.
    Octets,
}

/// What opens an hour: a field to calculate in, and how many minutes there are. The width is any
/// word here; whoever opens the hour tests it.
#[derive(Clone, Copy, PartialEq, Eq, Debug)]
pub struct Opening {
    pub field: FieldName,
    pub width: u16,
}

// The name that the next field is.
fn read_name(fields: &mut Fields<'_>) -> Result<FieldName, Refusal>
    ensures value { numbered result ≡ first_name (to_come fields.old) }
    ensures rest { to_come fields.new ≡ drop 1 (to_come fields.old) }
{
    let token = fields.next().ok_or(Refusal::FieldCount)?;
    match token.kind {
        Kind::Letter('P') => Ok(FieldName::Prime),
        Kind::Letter('B') => Ok(FieldName::Octets),
        _ => Err(Refusal::BadField(token.at)),
    }
}

// The opening that the fields behind the letter write, of which there are `count`.
pub(crate) fn read_opening(mut fields: Fields<'_>, count: usize) -> Result<Opening, Refusal>
    requires { count ≡ length (to_come fields) }
    ensures { numbered result ≡ read_opening (to_come fields.entry) }
{
    if count != 2 {
        return Err(Refusal::FieldCount);
    }
    let field = read_name(&mut fields)?;
    let width = read_number(&mut fields)?;
    Ok(Opening { field, width })
}
