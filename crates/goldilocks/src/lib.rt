// The Goldilocks field. Its elements are the numbers below the prime p = 2^64 - 2^32 + 1.
//
// Public, for any numbers: `GoldilocksField::from_canonical_u64`, and the functions `add`, `mul` and `complement`. The methods of the
// same names are the crate's own, for elements that were tested. Numbers in, numbers out: nothing is touched.
#![tactic(auto)]

mod wide;

ghost use Rattle.std.specs.Prelude.{◌≡◌, ◌&&◌, ◌<◌};
ghost use Rattle.rules.specs.Numbers.{p};
ghost use Rattle.rules.specs.Field.{is_element, field_add, field_mul, field_complement};
ghost use Rattle.goldilocks.specs.Elements.{element_where};

use wide::Wide;

// An element, by its number.
#[derive(Clone, Copy)]
pub struct GoldilocksField {
    pub value: u64,
}

impl GoldilocksField {
    // The prime p.
    pub const ORDER: u64 = 0xFFFF_FFFF_0000_0001;

    // The element of a number below p.
    #[tactic(auto, unfolding(rules::specs::Numbers::p))]
    pub fn from_canonical_u64(n: u64) -> Option<GoldilocksField>
        ensures { result ≡ element_where (is_element n) n }
    {
        (n < GoldilocksField::ORDER).then_some(GoldilocksField { value: n })
    }

    pub(crate) fn add(self, other: GoldilocksField) -> GoldilocksField
        requires { (self.value < p) × (other.value < p) }
        ensures { result.value ≡ field_add self.value other.value }
    {
        let gap = GoldilocksField::ORDER - other.value;
        if self.value < gap {
            GoldilocksField {
                value: self.value + other.value,
            }
        } else {
            GoldilocksField {
                value: self.value - gap,
            }
        }
    }

    // Right for values that are no elements too.
    pub(crate) fn mul(self, other: GoldilocksField) -> GoldilocksField
        ensures { result.value ≡ field_mul self.value other.value }
    {
        GoldilocksField {
            value: Wide::product(self.value, other.value).reduce(),
        }
    }

    // What NOT gives.
    pub(crate) fn complement(self) -> GoldilocksField
        requires { self.value < p }
        ensures { result.value ≡ field_complement self.value }
    {
        GoldilocksField {
            value: GoldilocksField::ORDER - 1 - self.value,
        }
    }
}

// The sum of two elements.
pub fn add(a: u64, b: u64) -> Option<GoldilocksField>
    ensures { result ≡ element_where (is_element a && is_element b) (field_add a b) }
{
    let x = GoldilocksField::from_canonical_u64(a)?;
    let y = GoldilocksField::from_canonical_u64(b)?;
    Some(x.add(y))
}

// The product of two elements.
pub fn mul(a: u64, b: u64) -> Option<GoldilocksField>
    ensures { result ≡ element_where (is_element a && is_element b) (field_mul a b) }
{
    let x = GoldilocksField::from_canonical_u64(a)?;
    let y = GoldilocksField::from_canonical_u64(b)?;
    Some(x.mul(y))
}

// The complement of an element.
pub fn complement(a: u64) -> Option<GoldilocksField>
    ensures { result ≡ element_where (is_element a) (field_complement a) }
{
    let x = GoldilocksField::from_canonical_u64(a)?;
    Some(x.complement())
}
