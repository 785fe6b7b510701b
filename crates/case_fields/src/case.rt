// A case: what its lines have given so far.
ghost use Rattle.std.specs.Prelude.{◌≡◌, length, min, slice_index};

use crate::parts::{LONGEST, NotUnderstood, Part};
use crate::snapshot::Snapshot;
use crate::text::Text;

// What stands where no line has put anything.
const UNUSED: u64 = 0xEEEE_EEEE_EEEE_EEEE;

// The same, in a sheet.
const UNUSED_BYTE: u8 = 0xEE;

#[derive(Drop)]
pub struct Case {
    pub words: Part,
    pub text: Text,
    zeros: Part,
    pub budget: Part,
    // How much of each buffer is lent: of addresses, numbers, marks, tape, output and moments, and of the sheet.
    pub buffers: Part,
    pub sheet: Part,
    pub start: Snapshot,
}

// The buffers of a snapshot, as far as they are lent.
pub struct Lent<'a> {
    pub addresses: &'a mut [u64],
    pub numbers: &'a mut [u64],
    pub moments: &'a mut [u64],
    pub marks: &'a mut [u64],
    pub tape: &'a mut [u64],
    pub output: &'a mut [u64],
    pub sheet: &'a mut [u8],
}

impl Case {
    // What stands before the first case: zeros, as if every line had given no numbers.
    pub fn new() -> Case {
        Case::filled(Part::filled(Some(0), 0), 0)
    }

    // A case with one number at every place, and with no text.
    fn filled(part: Part, byte: u8) -> Case {
        Case {
            words: part,
            text: Text::new(),
            zeros: part,
            budget: part,
            buffers: part,
            sheet: part,
            start: Snapshot::filled(part, byte),
        }
    }

    // Begins a case: what no line gives is unused, but for these.
    pub fn clear(&mut self) {
        *self = Case::filled(Part::filled(None, UNUSED), UNUSED_BYTE);
        for line in [
            b"registers 0 0 0 0 0 0 0 0 0 0 0".as_slice(),
            b"state 0 0 fffffffe00000002 0 0 0 0".as_slice(),
            b"used 0 0 0".as_slice(),
            b"buffers 800 800 800 1000 1000".as_slice(),
            b"sheet 1001".as_slice(),
        ] {
            let _ = self.read_line(line);
        }
    }

    // Takes what a line gives, by its first letters.
    pub fn read_line(&mut self, line: &[u8]) -> Result<(), NotUnderstood> {
        match line {
            [b'l', ..] => {
                self.text.add(line.get(b"line ".len()..).unwrap_or(&[]));
                self.text.add(b"\n");
                Ok(())
            }
            [b'z', ..] => {
                self.zeros.read(line)?;
                self.text.add_zeros(self.zeros.numbers[0]);
                Ok(())
            }
            [b'w', ..] => self.words.read(line),
            [b'r', ..] => self.start.registers.read(line),
            [b's', b'h', ..] => self.sheet.read(line),
            [b's', ..] => self.start.state.read(line),
            [b'u', ..] => self.start.used.read(line),
            [b'b', ..] => self.buffers.read(line),
            [b'a', ..] => self.start.addresses.read(line),
            [b'n', ..] => self.start.numbers.read(line),
            [b'm', b'o', ..] => self.start.moments.read(line),
            [b'm', ..] => self.start.marks.read(line),
            [b't', ..] => self.start.tape.read(line),
            [b'o', ..] => self.start.output.read(line),
            _ => Err(NotUnderstood),
        }
    }

    // What all lines together leave open. The moments of used cells are 0 where no line gives them; moments have the capacity of numbers
    // where they have none of their own.
    pub fn complete(&mut self) {
        if self.buffers.given().len() < 6 {
            self.buffers.numbers[5] = self.buffers.numbers[1];
        }
        let cells = self.start.used.numbers[0] as usize;
        let moments = &mut self.start.moments;
        let given = moments.given().len();
        for moment in moments.numbers.iter_mut().take(cells).skip(given) {
            *moment = 0;
        }
    }

    // How many bytes of the sheet are lent.
    pub fn sheet_length(&self) -> usize
        ensures { result ≡ min (slice_index self.now.sheet.numbers 0) LONGEST }
    {
        (self.sheet.numbers[0] as usize).min(LONGEST)
    }

    pub fn lend<'a>(&self, snapshot: &'a mut Snapshot) -> Lent<'a>
        ensures addresses { length result.addresses.now ≡ min (slice_index self.now.buffers.numbers 0) LONGEST }
        ensures numbers { length result.numbers.now ≡ min (slice_index self.now.buffers.numbers 1) LONGEST }
        ensures marks { length result.marks.now ≡ min (slice_index self.now.buffers.numbers 2) LONGEST }
        ensures tape { length result.tape.now ≡ min (slice_index self.now.buffers.numbers 3) LONGEST }
        ensures output { length result.output.now ≡ min (slice_index self.now.buffers.numbers 4) LONGEST }
        ensures moments { length result.moments.now ≡ min (slice_index self.now.buffers.numbers 5) LONGEST }
        ensures sheet { length result.sheet.now ≡ min (slice_index self.now.sheet.numbers 0) LONGEST }
    {
        let [addresses, numbers, marks, tape, output, moments, ..] = self.buffers.numbers;
        let sheet = &mut snapshot.sheet;
        Lent {
            addresses: snapshot.addresses.lend(addresses),
            numbers: snapshot.numbers.lend(numbers),
            moments: snapshot.moments.lend(moments),
            marks: snapshot.marks.lend(marks),
            tape: snapshot.tape.lend(tape),
            output: snapshot.output.lend(output),
            sheet: &mut sheet[..self.sheet_length()],
        }
    }
}
