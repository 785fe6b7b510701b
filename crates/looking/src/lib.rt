// What a traced step looks at before it is made: CALL's further cell, and the numbers of op0 and op1.
//
// Internal, for the crate above: `look`.
#![tactic(auto)]

ghost use Rattle.std.specs.Prelude.{◌≡◌, List, ℕ, ◌+◌, ◌≤◌, length};
ghost use Rattle.rules.specs.Opcodes.{class_of};
ghost use Rattle.rules.specs.Handed.{snapshot};
ghost use Rattle.hardware.specs.Buffers.{Rising};
ghost use Rattle.program.specs.Table.{program_of, word_slot};
ghost use Rattle.effects.specs.Deciding.{Within};
ghost use Rattle.sheets.specs.Traced.{reads_further};
ghost use Rattle.looking.specs.Looks.{absent_below, sight_of, Looks};

use effects::Mode;
use hardware::addresses::Addresses;
use program::slots;
use program::table::{Loaded, Row};
use rules::{Machine, OlaOpcode};
use sheets::Present;

// What is seen: is CALL's further cell absent; what a line shows of op0 and op1; and the register that dst is, where it is present. The
// numbers stand beside what is present, as in the line (`sheets::Present`).
#[derive(Clone, Copy)]
pub struct Sight {
    pub unread: bool,
    pub present: Present,
    pub op0: u64,
    pub op1: u64,
    pub dst: usize,
}

impl Sight {
    // Of a step whose operands are refused, or where no instruction starts.
    const NOTHING: Sight = Sight {
        unread: false,
        present: Present {
            op0: false,
            op1: false,
            dst: false,
        },
        op0: 0,
        op1: 0,
        dst: 0,
    };
}

// Does an opcode read a further cell? Only CALL does.
#[tactic(auto, unfolding(rules::specs::Opcodes::class_of, sheets::specs::Traced::reads_further))]
fn reads_further(opcode: OlaOpcode) -> bool
    ensures { result ≡ reads_further (class_of opcode) }
{
    matches!(opcode, OlaOpcode::Call)
}

// Is the cell at R9 - 2 absent?
fn is_absent_below(r9: u64, used: Addresses) -> bool
    ensures { result ≡ absent_below used.entry.used.now r9 }
{
    r9 < 2 || used.find(r9 - 2).is_err()
}

// What is seen of a row's step, once its operands stand at their slots.
fn look_at(row: &Row, r9: u64, used: Addresses, values: &[u64]) -> Sight
    requires { Within row.now values.now }
    ensures { result ≡ sight_of row.now (absent_below used.entry.used.now r9) values.now }
{
    let Some(opcode) = row.opcode() else {
        return Sight::NOTHING;
    };
    let present = sheet_lines::present_of(opcode);
    Sight {
        unread: reads_further(opcode) && is_absent_below(r9, used),
        present,
        op0: values[row.op0()],
        op1: values[row.op1()],
        dst: if present.dst { row.dst() } else { 0 },
    }
}

// What is seen of the step at pc.
pub fn look(program: Loaded, machine: Machine, addresses: &[u64], values: &mut [u64]) -> Sight
    requires words_in_bounds { word_slot + length program.words.now ≤ length values.old }
    requires rising { Rising machine.cell_count addresses.now }
    ensures looks { (ns ms tape output : List ℕ) → length ns ≡ length addresses.now
        → length ms ≡ length addresses.now
        → Looks (program_of program.entry.words.now) (snapshot machine addresses.now ns ms tape output) result }
    ensures values_len_unchanged { length values.new ≡ length values.old }
{
    let Some(row) = program.row_at(machine.pc) else {
        return Sight::NOTHING;
    };
    let registers = machine.registers;
    interpreter::load_values(program.words, registers, machine.psp, values);
    if let Some(place) = row.frame() {
        if let Err(_) = interpreter::compute(Mode::PLAIN, program.words, place, row, values) {
            return Sight::NOTHING;
        }
    }
    let used = Addresses::of(machine.cell_count, addresses);
    look_at(row, registers[slots::R9], used, values)
}
