//! Numbers as fields of a line.
use std::fmt;

// Numbers that stand behind others in a line: each with a comma before it.
#[derive(Clone, Copy)]
pub struct Numbers<'a> {
    pub numbers: &'a [u16],
}

impl fmt::Display for Numbers<'_> {
    ghost use Rattle.std.specs.Prelude.{Some};
    ghost use Rattle.reports.specs.Texts.{numbers_text};

    ghost output = { λ fields. Some (numbers_text fields.numbers.now) };

    fn fmt<W: fmt::Write>(&self, f: &mut fmt::Formatter<W>) -> fmt::Result {
        for number in self.numbers {
            write!(f, ",{number}")?;
        }
        Ok(())
    }
}
