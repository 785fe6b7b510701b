// A line of a sheet: which numbers it has, its 16 words, and their text.
//
// Internal, for the crate above: `present_of`, `line_words`, `put_line`.
#![tactic(auto)]

ghost use Rattle.std.specs.Prelude.{◌≡◌, suc, ◌+◌, ◌*◌, ◌≤◌, length};
ghost use Rattle.hexadecimal.specs.Writing.{overlay_at};
ghost use Rattle.rules.specs.Opcodes.{class_of};
ghost use Rattle.sheets.specs.Lines.{present_of, presence_word, shown, line_words, line_text};

use rules::{Machine, OlaOpcode};
use sheets::Present;

// The words of a line.
const LINE_WORDS: usize = 16;

// 16 digits for each, and a line feed.
pub const LINE_BYTES: usize = 16 * LINE_WORDS + 1;

const ALL: Present = Present {
    op0: true,
    op1: true,
    dst: true,
};

const OP1_AND_DST: Present = Present {
    op0: false,
    op1: true,
    dst: true,
};

const OP1_ALONE: Present = Present {
    op0: false,
    op1: true,
    dst: false,
};

const OP0_AND_OP1: Present = Present {
    op0: true,
    op1: true,
    dst: false,
};

const NONE: Present = Present {
    op0: false,
    op1: false,
    dst: false,
};

// Which numbers a line has, by the step's opcode.
#[tactic(auto, unfolding(rules::specs::Opcodes::class_of, sheets::specs::Lines::present_of))]
pub fn present_of(opcode: OlaOpcode) -> Present
    ensures { result ≡ present_of (class_of opcode) }
{
    match opcode {
        OlaOpcode::Add
        | OlaOpcode::Mul
        | OlaOpcode::Eq
        | OlaOpcode::Neq
        | OlaOpcode::And
        | OlaOpcode::Or
        | OlaOpcode::Xor
        | OlaOpcode::Gte
        | OlaOpcode::Mload
        | OlaOpcode::Mstore => ALL,
        OlaOpcode::Not | OlaOpcode::Mov => OP1_AND_DST,
        OlaOpcode::Assert | OlaOpcode::Rc | OlaOpcode::Jmp | OlaOpcode::Cjmp | OlaOpcode::Call =>
            OP1_ALONE,
        OlaOpcode::Tload | OlaOpcode::Tstore | OlaOpcode::Sccall => OP0_AND_OP1,
        _ => NONE,
    }
}

// An absent number is 0.
fn show(present: bool, number: u64) -> u64
    ensures { result ≡ shown present number }
{
    if present { number } else { 0 }
}

// Bits 0, 1 and 2 say which numbers are present.
fn presence(present: Present) -> u64
    ensures { result ≡ presence_word present }
{
    present.op0 as u64 + (2 * (present.op1 as u64) + 4 * (present.dst as u64))
}

// The words of a line, by the machine before the step and the three numbers.
pub fn line_words(
    machine: Machine,
    present: Present,
    op0: u64,
    op1: u64,
    dst: u64,
) -> [u64; LINE_WORDS]
    ensures { result ≡ line_words machine.clk machine.pc machine.registers present op0 op1 dst }
{
    let registers = machine.registers;
    [
        machine.clk,
        machine.pc,
        registers[0],
        registers[1],
        registers[2],
        registers[3],
        registers[4],
        registers[5],
        registers[6],
        registers[7],
        registers[8],
        registers[9],
        show(present.op0, op0),
        show(present.op1, op1),
        show(present.dst, dst),
        presence(present),
    ]
}

// Writes a line of words from a place on.
pub fn put_line(at: usize, words: &[u64], sheet: &mut [u8])
    requires { at + suc (16 * length words.now) ≤ length sheet.old }
    ensures { sheet.new ≡ overlay_at sheet.old at (line_text words.now) }
{
    let mut next = at;
    for word in words {
        hexadecimal::put_16(next, *word, sheet);
        next += 16;
    }
    sheet[next] = b'\n';
}
