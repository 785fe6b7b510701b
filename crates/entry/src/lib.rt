// The tests of refusal 3 on what a caller hands in. They look at the used elements of each buffer only, and write nothing.
//
// Internal, for the crates above, and for any arguments: `accepts`, and `accepts_marks` for what only a guarded run has.
#![tactic(auto)]

ghost use Rattle.std.specs.Prelude.{◌≡◌, not, ◌||◌, List, ℕ, ltb, leb, eqb, take};
ghost use Rattle.std.specs.List.{list_all, zip};
ghost use Rattle.rules.specs.Numbers.{p};
ghost use Rattle.rules.specs.Entry.{rising_from, low_bits, marked_below, plain_entry, marks_entry};
ghost use Rattle.rules.specs.Handed.{snapshot, guarded_snapshot};

use goldilocks::GoldilocksField;
use hardware::cells::Cell;
use hardware::regions::Region;
use rules::{Machine, Marks};

// The most cells, and the most values of tape or output.
pub const CELL_LIMIT: usize = 2048;

pub const VALUE_LIMIT: usize = 4096;

// A word of marks, one bit for each of the ten registers, is below it.
const MARKS_END: u64 = 1024;

// The used part of a buffer: as far as the count and the buffer go.
fn used(count: usize, buffer: &[u64]) -> &[u64]
    ensures { result.now ≡ take count buffer.now }
{
    &buffer[..count.min(buffer.len())]
}

// Are the addresses strictly rising, within stack and heap?
fn rising(addresses: &[u64]) -> bool
    ensures { result ≡ rising_from 0 addresses.now }
{
    addresses.is_sorted_by(|a, b| *a < *b)
        && addresses.last().is_none_or(|last| *last < Region::HEAP_END)
}

// Is each number at most the limit?
fn at_most(limit: u64, numbers: &[u64]) -> bool
    ensures { result ≡ list_all (λ n. leb n limit) numbers.now }
{
    numbers.iter().all(|n| *n <= limit)
}

// A marked number has to be below p.
#[tactic(auto, unfolding(rules::specs::Numbers::p))]
fn mark_fits(number: u64, marked: bool) -> bool
    ensures { result ≡ (not marked || ltb number p) }
{
    !marked || number < GoldilocksField::ORDER
}

// Is each number with a mark of 1 below p?
fn marked_below(numbers: &[u64], marks: &[u64]) -> bool
    ensures { result ≡ list_all (λ (q : ℕ × ℕ). not (eqb q.1 1) || ltb q.0 p) (zip numbers.now marks.now) }
{
    numbers
        .iter()
        .zip(marks)
        .all(|(number, mark)| mark_fits(*number, *mark == 1))
}

// Is the number of each register whose bit is set below p?
fn registers_below(registers: [u64; 10], word: u64) -> bool
    ensures { result ≡ marked_below (low_bits 10 word) registers }
{
    let mut bits = word;
    for number in registers {
        if !mark_fits(number, bits % 2 == 1) {
            return false;
        }
        bits /= 2;
    }
    true
}

// Do the machine and the buffers pass?
pub fn accepts(
    machine: Machine,
    addresses: &[u64],
    numbers: &[u64],
    moments: &[u64],
    tape: &[u64],
    output: &[u64],
) -> bool
    ensures { result
        ≡ plain_entry (snapshot machine addresses.now numbers.now moments.now
        tape.now output.now) }
{
    let sizes_fit = machine.clk < clock::CLOCK_END
        && machine.cell_count <= addresses.len()
        && machine.tape_count <= tape.len()
        && machine.output_count <= output.len()
        && numbers.len() == addresses.len()
        && moments.len() == addresses.len()
        && addresses.len() <= CELL_LIMIT
        && tape.len() <= VALUE_LIMIT
        && output.len() <= VALUE_LIMIT;
    sizes_fit
        && rising(used(machine.cell_count, addresses))
        && at_most(Cell::LARGEST, used(machine.cell_count, numbers))
        && at_most(machine.clk, used(machine.cell_count, moments))
}

// Do the marks pass? Moments, tape and output do not matter.
pub fn accepts_marks(
    machine: Machine,
    extras: Marks,
    addresses: &[u64],
    numbers: &[u64],
    marks: &[u64],
) -> bool
    ensures { (moments tape output : List ℕ) → result
        ≡ marks_entry (guarded_snapshot machine extras addresses.now numbers.now moments marks.now
        tape output) }
{
    let used_marks = used(machine.cell_count, marks);
    marks.len() == addresses.len()
        && at_most(1, used_marks)
        && extras.registers < MARKS_END
        && registers_below(machine.registers, extras.registers)
        && marked_below(used(machine.cell_count, numbers), used_marks)
}
