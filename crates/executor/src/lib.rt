// The public calls: the plain ones in `plain`, the guarded ones in `guarded`, both thin functions over the core in crates
// `calling` and `checking`; and `solve`, from its input to the lines that it prints.
#![tactic(auto)]

pub mod guarded;
pub mod plain;

ghost use Rattle.std.specs.Prelude.{◌≡◌};
ghost use Rattle.rules.specs.Solve.{solve_start, solve};
ghost use Rattle.hexadecimal.specs.Writing.{Writes};

use hardware::regions::Region;
use rules::Machine;

// A buffer for the input of `solve`: one byte more than the longest text has, so that a longer one is seen.
pub const INPUT_SIZE: usize = program_text::TEXT_LIMIT + 1;

// Where `solve` starts: all zero, nothing used, the PSP of a default memory.
fn start() -> Machine
    ensures { result ≡ solve_start.machine }
{
    Machine {
        registers: [0; 10],
        pc: 0,
        clk: 0,
        psp: Region::HEAP_END,
        storage_addr: [0; 4],
        cell_count: 0,
        tape_count: 0,
        output_count: 0,
    }
}

// The whole of `solve`: from its input, a budget line and frames, to the lines that it prints, which are written into the caller's
// buffer; nothing is written where they do not fit.
pub fn solve(input: &[u8], lines: &mut [u8]) -> Option<usize>
    ensures { Writes (solve input.now) lines.old 0 result lines.new }
{
    let mut addresses = [0u64; entry::CELL_LIMIT];
    let mut numbers = [0u64; entry::CELL_LIMIT];
    let mut moments = [0u64; entry::CELL_LIMIT];
    let mut tape = [0u64; entry::VALUE_LIMIT];
    let mut output = [0u64; entry::VALUE_LIMIT];
    let ran = plain::run_budget_text(
        input,
        start(),
        &mut addresses,
        &mut numbers,
        &mut moments,
        &mut tape,
        &mut output,
    );
    report::print(ran.answer, ran.steps, ran.machine, &output, lines)
}
