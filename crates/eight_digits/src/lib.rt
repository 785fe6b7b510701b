// Eight characters in one word, the first in the highest byte, read as the hexadecimal number of their digits: all eight at once.
//
// Public: `number`, `packed`.
#![tactic(auto)]

ghost use Rattle.std.specs.Prelude.{◌≡◌};
ghost use Rattle.eight_digits.specs.EightDigits.{characters, eight_digits};

// The number of the eight digits.
//
// Every sum and difference stays within its byte, whatever the characters are. Of the digits just the letters have bit 6. Moved down by
// 0x27 they come right after '9', so that the digits are 0x30 to 0x3f, in their order. What else comes to stand there is told by bit 6: a
// moved character plus 6 must have it exactly where the character had it.
pub fn number(w: u64) -> Option<u64>
    ensures { result ≡ eight_digits w }
{
    let letters = (w / 0x40) & 0x0101_0101_0101_0101;
    let moved = w - letters * 0x27;
    let digits = moved ^ 0x3030_3030_3030_3030;
    let past_nine = moved + 0x0606_0606_0606_0606;
    let wrong = (digits & 0xf0f0_f0f0_f0f0_f0f0) | ((past_nine ^ w) & 0x4040_4040_4040_4040);
    if wrong != 0 {
        return None;
    }
    // a digit in each byte; then two digits in every second byte, four in every fourth, eight
    let twos = (digits + digits / 0x10) & 0x00ff_00ff_00ff_00ff;
    let fours = (twos + twos / 0x100) & 0x0000_ffff_0000_ffff;
    Some((fours + fours / 0x1_0000) & 0xffff_ffff)
}

// Eight characters in one word, the first in the highest byte.
pub fn packed(text: &[u8; 8]) -> u64
    ensures { characters result ≡ text.now }
{
    u64::from_be_bytes(*text)
}
