//! Products and inverses in both fields over whole slices, with C's calling convention: what a benchmark links.
#![tactic(auto)]

ghost use Rattle.field.specs.Modulo.{modulo};
ghost use Rattle.field.specs.Octets.{octets};
ghost use Rattle.fieldspeed.specs.Slices.{Products, Inverses};

use field::fields::Field;
use field::octets::Octets;
use field::primes::Prime;

// Writes the product at each place that all three slices have.
fn times_all<F: Field>(a: &[u16], b: &[u16], out: &mut [u16])
    ensures { Products F.Field.ops a.now b.now out.old out.new }
{
    let count = out.len().min(a.len().min(b.len()));
    // By index: of a slice written under a zip the check learns no element, and octets take half as long again.
    for i in 0..count {
        out[i] = F::times(a[i], b[i]);
    }
}

// Writes the inverse, 0 where there is none, at each place that both slices have.
#[tactic(auto, unfolding(field::specs::Operations::inverse))]
fn inverse_all<F: Field>(a: &[u16], out: &mut [u16])
    ensures { Inverses F.Field.ops a.now out.old out.new }
{
    let count = out.len().min(a.len());
    // By index, as above.
    for i in 0..count {
        out[i] = F::inverse(a[i]).unwrap_or(0);
    }
}

// C has no generic function and takes no struct of slices: each field has calls of its own, each over its slices.
#[unsafe(no_mangle)]
pub extern "C" fn prime_times(a: &[u16], b: &[u16], out: &mut [u16])
    ensures { Products (modulo 65521) a.now b.now out.old out.new }
{
    times_all::<Prime>(a, b, out);
}

#[unsafe(no_mangle)]
pub extern "C" fn octets_times(a: &[u16], b: &[u16], out: &mut [u16])
    ensures { Products octets a.now b.now out.old out.new }
{
    times_all::<Octets>(a, b, out);
}

#[unsafe(no_mangle)]
pub extern "C" fn prime_inverse(a: &[u16], out: &mut [u16])
    ensures { Inverses (modulo 65521) a.now out.old out.new }
{
    inverse_all::<Prime>(a, out);
}

#[unsafe(no_mangle)]
pub extern "C" fn octets_inverse(a: &[u16], out: &mut [u16])
    ensures { Inverses octets a.now out.old out.new }
{
    inverse_all::<Octets>(a, out);
}
