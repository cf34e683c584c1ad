//! Numbers as a line writes them: decimal, 0 to 65535, without leading zeros.
ghost use Rattle.std.specs.Prelude.{◌≡◌};
ghost use Rattle.lines.specs.Numbers.{read_on, number_of, Number};

// The number that digits write; none where a byte is no digit, or the number does not fit.
// By hand: the library's `parse` takes `+1` as well.
fn digits_value(text: &[u8]) -> Option<u16>
    ensures { result ≡ read_on 0 text.now }
{
    let mut n: u16 = 0;
    for byte in text {
        if !byte.is_ascii_digit() {
            return None;
        }
        n = u16::try_from(u32::from(n) * 10 + u32::from(*byte - b'0')).ok()?;
    }
    Some(n)
}

// The number that a field writes; none where the field is no number.
pub fn number(text: &[u8]) -> Option<u16>
    ensures value { result ≡ number_of text.now }
    ensures exact { Number text.now result }
{
    match text {
        [] | [b'0', _, ..] => None,
        _ => digits_value(text),
    }
}
