//! What a field is: its operations on words, tied to operations on numbers, and the laws these owe.
ghost use Rattle.std.specs.Prelude.{◌≡◌, ℕ, ◌%◌, nat_lt};
ghost use Rattle.field.specs.Operations.{Operations, reciprocal};
ghost use Rattle.field.specs.Laws.{FieldLaws, Lawful, Consequences};

// A finite field. Its elements are the codes, the numbers from 0 to Q - 1; a call reads any word as its remainder by Q.
pub trait Field {
    const Q: u16;

    ghost Q: { ℕ };

    ghost ops: { Operations };

    fn plus(a: u16, b: u16) -> u16
        ensures { result ≡ ops.plus a b };

    fn negative(a: u16) -> u16
        ensures { result ≡ ops.negative a };

    fn times(a: u16, b: u16) -> u16
        ensures { result ≡ ops.times a b };

    fn inverse(a: u16) -> Option<u16>
        ensures { result ≡ reciprocal ops a };

    // Q counts the elements of `ops`, so that generic code may use it.
    ghost counted: { Q ≡ ops.q };

    ghost laws: { FieldLaws ops };
}

// Whether a word is a code of the field.
pub fn is_code<F: Field>(word: u16) -> bool
    ensures { result ≡ nat_lt word F.Field.ops.q }
{
    word < F::Q
}

// The code that a word is read as: its remainder.
pub fn code_of<F: Field>(word: u16) -> u16
    ensures { result ≡ word % F.Field.ops.q }
{
    word % F::Q
}

// In every field the laws hold for all numbers, and so does what algebra draws from them.
pub fn laws_hold<F: Field>()
    ensures lawful { (L : Lawful) × (L.ops ≡ F.Field.ops) }
    ensures consequences { Consequences F.Field.ops }
{}
