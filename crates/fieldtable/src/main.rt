//! Writes what the operations of both fields give: for pairs of words every operation, then all products and
//! inverses of the octets. The output of another implementation is stored beside it.
#![tactic(auto)]

use field::fields::Field;
use field::octets::Octets;
use field::primes::Prime;
use std::alloc::AllocError;
use std::fmt;

// Words at the ends of ranges: of bits, of octets and of the integers modulo 65521.
const EDGES: [u16; 19] = [
    0, 1, 2, 3, 128, 255, 256, 257, 511, 512, 32760, 32761, 65279, 65280, 65519, 65520, 65521,
    65522, 65535,
];

fn put_inverse<F: Field>(text: &mut String, a: u16) -> Result<(), AllocError> {
    match F::inverse(a) {
        Some(b) => write!(text, ",{b}"),
        None => text.push_str(",none"),
    }
}

fn put_operations<F: Field>(
    text: &mut String,
    letter: char,
    a: u16,
    b: u16,
) -> Result<(), AllocError> {
    let sum = F::plus(a, b);
    let product = F::times(a, b);
    let negative = F::negative(a);
    write!(text, "{letter},{a},{b},{sum},{product},{negative}")?;
    put_inverse::<F>(text, a)?;
    text.push('\n')
}

fn put_pair(text: &mut String, a: u16, b: u16) -> Result<(), AllocError> {
    put_operations::<Prime>(text, 'P', a, b)?;
    put_operations::<Octets>(text, 'B', a, b)
}

fn put_edges(text: &mut String) -> Result<(), AllocError> {
    for a in EDGES {
        for b in EDGES {
            put_pair(text, a, b)?;
        }
    }
    Ok(())
}

// The state after another of a generator of 32 bits; the upper half of a state is a word.
fn state_after(state: u32) -> u32 {
    state.wrapping_mul(1664525).wrapping_add(1013904223)
}

fn put_sequence(text: &mut String, pairs: u32) -> Result<(), AllocError> {
    let mut state = 1;
    for _ in 0..pairs {
        let first = state_after(state);
        state = state_after(first);
        // The upper half fits 16 bits, which is proved here; `try_from` would want an answer where it does not.
        put_pair(text, (first >> 16) as u16, (state >> 16) as u16)?;
    }
    Ok(())
}

fn put_products(text: &mut String, a: u16) -> Result<(), AllocError> {
    write!(text, "B,times,{a}")?;
    for b in 0..Octets::Q {
        write!(text, ",{}", Octets::times(a, b))?;
    }
    text.push('\n')
}

fn put_inverses(text: &mut String) -> Result<(), AllocError> {
    text.push_str("B,inverse")?;
    for a in 0..Octets::Q {
        put_inverse::<Octets>(text, a)?;
    }
    text.push('\n')
}

fn put_table(text: &mut String) -> Result<(), AllocError> {
    put_edges(text)?;
    put_sequence(text, 4096)?;
    for a in 0..Octets::Q {
        put_products(text, a)?;
    }
    put_inverses(text)
}

fn main(rt: HostRuntime) -> anyhow::Result<()> {
    let mut text = String::new(rt.alloc());
    // Want of memory is told as a failure to format, in the words of `fmt::Error`.
    put_table(&mut text).map_err(fmt::Error::from)?;
    rt.stdout().write_all(text.as_bytes())?;
    Ok(())
}
