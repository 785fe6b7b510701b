// Products of two words, and their remainders modulo p, with no division by p.
ghost use Rattle.std.specs.Prelude.{◌≡◌, ◌+◌, ◌*◌, ◌/◌, ◌%◌, ◌^◌, ◌<◌};
ghost use Rattle.rules.specs.Numbers.{p};
ghost use Rattle.rules.specs.Field.{field_add};

use crate::GoldilocksField;

// The number high * 2^64 + low.
#[derive(Clone, Copy)]
pub(crate) struct Wide {
    high: u64,
    low: u64,
}

impl Wide {
    // 2^32: a word is two halves of 32 bits.
    const HALF: u64 = 0x1_0000_0000;

    // 2^64 modulo p.
    const EPSILON: u64 = 0xFFFF_FFFF;

    // The whole product of two words. Its words share no sums: so the compiler sees one multiplication.
    pub(crate) fn product(u: u64, v: u64) -> Wide
        ensures { result.high * 2 ^ 64 + result.low ≡ u * v }
    {
        Wide {
            high: high_product(u, v),
            low: low_product(u, v),
        }
    }

    // The remainder modulo p, by 2^64 = 2^32 - 1 and 2^96 = -1 (mod p).
    pub(crate) fn reduce(self) -> u64
        ensures { result ≡ (self.high * 2 ^ 64 + self.low) % p }
    {
        let h0 = self.high % Wide::HALF;
        let h1 = self.high / Wide::HALF;
        sum(difference(self.low, h1), h0 * Wide::EPSILON)
    }
}

// The product's high word, by the halves of both.
fn high_product(u: u64, v: u64) -> u64
    ensures { result ≡ u * v / 2 ^ 64 }
{
    let u0 = u % Wide::HALF;
    let u1 = u / Wide::HALF;
    let v0 = v % Wide::HALF;
    let v1 = v / Wide::HALF;
    let t = u1 * v0 + u0 * v0 / Wide::HALF;
    let w1 = u0 * v1 + t % Wide::HALF;
    u1 * v1 + t / Wide::HALF + w1 / Wide::HALF
}

// The product's low word, by the halves of both.
fn low_product(u: u64, v: u64) -> u64
    ensures { result ≡ u * v % 2 ^ 64 }
{
    let u0 = u % Wide::HALF;
    let u1 = u / Wide::HALF;
    let v0 = v % Wide::HALF;
    let v1 = v / Wide::HALF;
    let w0 = u0 * v0;
    let t = u1 * v0 + w0 / Wide::HALF;
    let w1 = u0 * v1 + t % Wide::HALF;
    w1 % Wide::HALF * Wide::HALF + w0 % Wide::HALF
}

// a - b modulo p, for a b of 32 bits: a number of 64 bits that need be no element.
fn difference(a: u64, b: u64) -> u64
    requires { b < 2 ^ 32 }
    ensures { (result + b) % p ≡ a % p }
{
    if a < b {
        GoldilocksField::ORDER - (b - a)
    } else {
        a - b
    }
}

// a + b modulo p, for any a and an element b.
fn sum(a: u64, b: u64) -> u64
    requires { b < p }
    ensures { result ≡ field_add a b }
{
    let gap = GoldilocksField::ORDER - b;
    if a < gap {
        return a + b;
    }
    let s = a - gap;
    if s < GoldilocksField::ORDER {
        s
    } else {
        s - GoldilocksField::ORDER
    }
}
