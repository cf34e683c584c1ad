//! The integers modulo the prime 65521.
ghost use Rattle.std.specs.Prelude.{◌≡◌, refl, ◌*◌, ◌%◌, ◌<◌};
ghost use Rattle.field.specs.Modulo.{modulo};
ghost use Rattle.field.specs.Residues.{prime_laws};

use crate::fields::Field;

// Q, where sums and products need 32 bits. By `as`: the value of a constant calls nothing.
// That a result fits 16 bits is proved at each `as u16` below; `try_from` would want an answer for what cannot happen.
const N: u32 = Prime::Q as u32;

// The inverse of a number from 1 to 65520, by Euclid's algorithm on 65521 and the number. Modulo 65521, the number
// times `to_low` is `low`, and the number times `to_high` is `high` with the other sign.
fn invert(a: u32) -> u32
    requires { (0 < a) × (a < 65521) }
    ensures code { result < 65521 }
    ensures inverts { (a * result) % 65521 ≡ 1 }
{
    let mut high = N;
    let mut low = a;
    let mut to_high = 0;
    let mut to_low = 1;
    while low > 1 {
        to_high += high / low * to_low;
        high %= low;
        if high == 1 {
            return N - to_high;
        }
        to_low += low / high * to_high;
        low %= high;
    }
    to_low
}

// The integers modulo 65521.
pub struct Prime;

impl Field for Prime {
    const Q: u16 = 65521;

    ghost Q = { 65521 };

    ghost ops = { modulo 65521 };

    ghost counted = { refl };

    ghost laws = { prime_laws };

    fn plus(a: u16, b: u16) -> u16 {
        ((u32::from(a) + u32::from(b)) % N) as u16
    }

    fn negative(a: u16) -> u16 {
        (Self::Q - a % Self::Q) % Self::Q
    }

    fn times(a: u16, b: u16) -> u16 {
        (u32::from(a) * u32::from(b) % N) as u16
    }

    fn inverse(a: u16) -> Option<u16> {
        match a % Self::Q {
            0 => None,
            a => Some(invert(u32::from(a)) as u16),
        }
    }
}
