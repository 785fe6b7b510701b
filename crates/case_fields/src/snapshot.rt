// What a call starts from, and what it leaves.
ghost use Rattle.std.specs.Prelude.{◌≡◌, [], ◌∷◌, ◌++◌, drop, map, slice_index, slice_set, take};

use crate::parts::{LONGEST, Part};
use rules::{Machine, Marks};

// The machine and its buffers, as the lines of a case give them: every place of every buffer, used and lent or not.
#[derive(Clone, Copy)]
pub struct Snapshot {
    // The ten registers, and the word of their marks.
    pub registers: Part,
    // pc, clk, psp, and the four words of the storage address.
    pub state: Part,
    // How many cells, tape values and output values are used.
    pub used: Part,
    pub addresses: Part,
    pub numbers: Part,
    pub moments: Part,
    pub marks: Part,
    pub tape: Part,
    pub output: Part,
    pub sheet: [u8; LONGEST],
}

// Where the word of the registers' marks stands.
const MARKS_PLACE: usize = 10;

impl Snapshot {
    // A snapshot with one number at every place, and one byte at every place of the sheet.
    pub(crate) fn filled(part: Part, byte: u8) -> Snapshot {
        Snapshot {
            registers: part,
            state: part,
            used: part,
            addresses: part,
            numbers: part,
            moments: part,
            marks: part,
            tape: part,
            output: part,
            sheet: [byte; LONGEST],
        }
    }

    pub fn machine(&self) -> Machine
        ensures registers { result.registers ≡ take 10 self.now.registers.numbers }
        ensures pc { result.pc ≡ slice_index self.now.state.numbers 0 }
        ensures clk { result.clk ≡ slice_index self.now.state.numbers 1 }
        ensures psp { result.psp ≡ slice_index self.now.state.numbers 2 }
        ensures storage_addr { result.storage_addr ≡ take 4 (drop 3 self.now.state.numbers) }
        ensures cell_count { result.cell_count ≡ slice_index self.now.used.numbers 0 }
        ensures tape_count { result.tape_count ≡ slice_index self.now.used.numbers 1 }
        ensures output_count { result.output_count ≡ slice_index self.now.used.numbers 2 }
    {
        let [pc, clk, psp, c0, c1, c2, c3, ..] = self.state.numbers;
        let [cells, tape, output, ..] = self.used.numbers;
        Machine {
            registers: *self.registers.numbers.first_chunk().unwrap(),
            pc,
            clk,
            psp,
            storage_addr: [c0, c1, c2, c3],
            cell_count: cells as usize,
            tape_count: tape as usize,
            output_count: output as usize,
        }
    }

    pub fn extras(&self) -> Marks
        ensures { result.registers ≡ slice_index self.now.registers.numbers MARKS_PLACE }
    {
        Marks {
            registers: self.registers.numbers[MARKS_PLACE],
        }
    }

    pub fn put_machine(&mut self, machine: Machine)
        ensures registers { self.new.registers.numbers ≡ machine.registers ++ drop 10 self.old.registers.numbers }
        ensures state { self.new.state.numbers
            ≡ machine.pc ∷ machine.clk ∷ machine.psp ∷ machine.storage_addr ++ drop 7 self.old.state.numbers }
        ensures used { self.new.used.numbers
            ≡ machine.cell_count ∷ machine.tape_count ∷ machine.output_count ∷ drop 3 self.old.used.numbers }
    {
        let [c0, c1, c2, c3] = machine.storage_addr;
        *self.registers.numbers.first_chunk_mut().unwrap() = machine.registers;
        *self.state.numbers.first_chunk_mut().unwrap() = [
            machine.pc,
            machine.clk,
            machine.psp,
            c0,
            c1,
            c2,
            c3,
        ];
        *self.used.numbers.first_chunk_mut().unwrap() = [
            machine.cell_count as u64,
            machine.tape_count as u64,
            machine.output_count as u64,
        ];
    }

    pub fn put_extras(&mut self, extras: Marks)
        ensures { self.new.registers.numbers ≡ slice_set self.old.registers.numbers MARKS_PLACE extras.registers }
    {
        self.registers.numbers[MARKS_PLACE] = extras.registers;
    }

    // The parts that are shown, each with the word that its line begins with.
    pub fn named(&self) -> [(&str, &Part); 9]
        ensures { map (λ p. p.1.now) result
            ≡ self.now.registers ∷ self.now.state ∷ self.now.used ∷ self.now.addresses ∷ self.now.numbers
            ∷ self.now.moments ∷ self.now.marks ∷ self.now.tape ∷ self.now.output ∷ [] }
    {
        [
            ("registers", &self.registers),
            ("state", &self.state),
            ("used", &self.used),
            ("addresses", &self.addresses),
            ("numbers", &self.numbers),
            ("moments", &self.moments),
            ("marks", &self.marks),
            ("tape", &self.tape),
            ("output", &self.output),
        ]
    }
}
