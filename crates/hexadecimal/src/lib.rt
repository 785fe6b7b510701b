// Words as text, in the digits 0-9a-f: `digit` and `word` read, `put_shortest` and `put_16` write into a buffer that the caller lends, and
// touch nothing else. All four are public and take any arguments.
// Internal, for the crates above: `word_of`, `digit_count`. The other functions are private.
#![tactic(auto)]

ghost use Rattle.std.specs.Prelude.{◌≡◌, ◌<◌, take, drop};
ghost use Rattle.rules.specs.Hexadecimal.{digit_of, digits_of, word_of, digit_char, low_digits, digits16, digit_count, shortest_hex};
ghost use Rattle.hexadecimal.specs.Writing.{Writes};

// The value of a digit.
#[tactic(auto, using(std::proofs::lemmas::Bool::Decides::nat_tests), unfolding(rules::specs::Hexadecimal::digit_of))]
pub fn digit(c: u8) -> Option<u64>
    ensures { result ≡ digit_of c }
{
    match c {
        b'0'..=b'9' => Some((c - b'0') as u64),
        b'a'..=b'f' => Some((c - b'a') as u64 + 10),
        _ => None,
    }
}

// The number of eight digits.
fn eight(text: &[u8; 8]) -> Option<u64>
    ensures { result ≡ digits_of 0 text.now }
{
    eight_digits::number(eight_digits::packed(text))
}

// The word of sixteen digits. Internal.
pub fn word_of(text: &[u8; 16]) -> Option<u64>
    ensures { result ≡ word_of text.now }
{
    let (halves, _) = text.as_chunks::<8>();
    let high = eight(&halves[0])?;
    let low = eight(&halves[1])?;
    Some(high * 0x1_0000_0000 + low)
}

// The word that stands in the sixteen characters from a place on.
pub fn word(s: &[u8], at: usize) -> Option<u64>
    ensures { result ≡ word_of (take 16 (drop at s.now)) }
{
    word_of(s.get(at..)?.first_chunk()?)
}

// Writes a word in shortest hexadecimal.
#[tactic(auto, unfolding(rules::specs::Hexadecimal::shortest_hex))]
pub fn put_shortest(at: usize, v: u64, buffer: &mut [u8]) -> Option<usize>
    ensures { Writes (shortest_hex v) buffer.old at result buffer.new }
{
    put_digits(at, v, digit_count(v), buffer)
}

// Writes the sixteen digits of a word.
pub fn put_16(at: usize, v: u64, buffer: &mut [u8]) -> Option<usize>
    ensures { Writes (digits16 v) buffer.old at result buffer.new }
{
    put_digits(at, v, 16, buffer)
}

// Writes a number's lowest n digits, the lowest first.
fn put_digits(at: usize, v: u64, n: usize, buffer: &mut [u8]) -> Option<usize>
    ensures { Writes (low_digits n v) buffer.old at result buffer.new }
{
    if buffer.len() < n || buffer.len() - n < at {
        return None;
    }
    let mut rest = v;
    // counted up: over `(at..at + n).rev()` a traced step took 1.8 times the instructions
    for written in 0..n {
        buffer[at + n - 1 - written] = digit_char(rest % 16);
        rest /= 16;
    }
    Some(at + n)
}

// The character of a digit's value.
fn digit_char(d: u64) -> u8
    requires { d < 16 }
    ensures { result ≡ digit_char d }
{
    if d < 10 {
        b'0' + d as u8
    } else {
        b'a' + (d - 10) as u8
    }
}

// How many digits a word needs. Internal.
pub fn digit_count(v: u64) -> usize
    ensures { result ≡ digit_count 15 v }
{
    v.max(1).ilog2() as usize / 4 + 1
}
