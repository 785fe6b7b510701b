// A part: what the lines of one kind give.
ghost use Rattle.std.specs.Prelude.{◌≡◌, length, min, take};
ghost use Rattle.std.specs.Option.{unwrap_or};

use hexadecimal::digit;

// The most numbers of a line, and the longest buffer that a case can lend.
pub const LONGEST: usize = 4097;

// What is said of a line that is none of the format's.
#[derive(Clone, Copy)]
pub struct NotUnderstood;

#[derive(Clone, Copy)]
pub struct Part {
    // How many numbers the last such line gave; none where the case has no such line.
    pub count: Option<usize>,
    pub numbers: [u64; LONGEST],
}

impl Part {
    // A part with one number at every place.
    pub(crate) fn filled(count: Option<usize>, number: u64) -> Part {
        Part {
            count,
            numbers: [number; LONGEST],
        }
    }

    // The numbers that the last line gave.
    pub fn given(&self) -> &[u64]
        ensures { result.now ≡ take (unwrap_or self.now.count 0) self.now.numbers }
    {
        &self.numbers[..self.count.unwrap_or(0).min(LONGEST)]
    }

    // The first places, as many as are lent, but no more than there are.
    pub(crate) fn lend(&mut self, capacity: u64) -> &mut [u64]
        ensures { length result.now ≡ min capacity LONGEST }
    {
        &mut self.numbers[..(capacity as usize).min(LONGEST)]
    }

    // Reads the numbers of a line, one behind each space. Of a line that is not understood, what stands before the fault is taken.
    pub fn read(&mut self, line: &[u8]) -> Result<(), NotUnderstood> {
        let Some(space) = line.iter().position(|c| *c == b' ') else {
            self.count = Some(0);
            return Ok(());
        };
        // each byte is looked at once: `split` looks for the spaces first, and short numbers took half as long again
        let mut at = 0;
        self.numbers[at] = 0;
        for c in &line[space + 1..] {
            if *c == b' ' {
                at += 1;
                *self.numbers.get_mut(at).ok_or(NotUnderstood)? = 0;
            } else {
                self.numbers[at] = with_digit(self.numbers[at], *c).ok_or(NotUnderstood)?;
            }
        }
        self.count = Some(at + 1);
        Ok(())
    }
}

// A number with one more digit; of more than sixteen the last sixteen count.
#[tactic(auto, using(hexadecimal::proofs::Digits::digit_lt))]
fn with_digit(number: u64, c: u8) -> Option<u64> {
    Some(number % 0x1000_0000_0000_0000 * 16 + digit(c)?)
}
