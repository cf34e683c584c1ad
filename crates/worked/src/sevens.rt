//! A small third field, for tests of what is written for every field.
ghost use Rattle.std.specs.Prelude.{refl};
ghost use Rattle.field.specs.Modulo.{modulo};
ghost use Rattle.worked.specs.Sevenths.{seven_laws};

use field::fields::Field;

// The integers modulo 7, in code of their own: to share it with `Prime` takes a trait of primes with its law, for a test.
// That a product fits 16 bits is proved at `as u16`; `try_from` would want an answer for what cannot happen.
pub struct Seven;

impl Field for Seven {
    const Q: u16 = 7;

    ghost Q = { 7 };

    ghost ops = { modulo 7 };

    ghost counted = { refl };

    ghost laws = { seven_laws };

    fn plus(a: u16, b: u16) -> u16 {
        (a % Self::Q + b % Self::Q) % Self::Q
    }

    fn negative(a: u16) -> u16 {
        (Self::Q - a % Self::Q) % Self::Q
    }

    fn times(a: u16, b: u16) -> u16 {
        (u32::from(a) * u32::from(b) % u32::from(Self::Q)) as u16
    }

    fn inverse(a: u16) -> Option<u16> {
        match a % Self::Q {
            0 => None,
            1 => Some(1),
            2 => Some(4),
            3 => Some(5),
            4 => Some(2),
            5 => Some(3),
            _ => Some(6),
        }
    }
}
