//! Bytes cut at a separator.
ghost use Rattle.std.specs.Prelude.{◌≡◌, ◌==◌, position};
ghost use Rattle.lines.specs.Fields.{PartEnd};

// Where the first separator stands, if there is one. A call of its own, whose promise the proof of `part_end` reads.
fn first_separator(bytes: &[u8], separator: u8) -> Option<usize>
    ensures { result ≡ position (λ byte. byte == separator) bytes.now }
{
    bytes.iter().position(|byte| *byte == separator)
}

// Where the part that begins at `from` ends: at the next separator, or where the bytes end.
pub fn part_end(bytes: &[u8], from: usize, separator: u8) -> usize
    ensures { PartEnd bytes.now from separator result }
{
    let Some(rest) = bytes.get(from..) else {
        return from;
    };
    from + first_separator(rest, separator).unwrap_or(rest.len())
}
