// The machine for C and Rust: exported functions on numbers and slices. A slice is passed as its first element's address and its length.
// As in Rust, nothing that a call may write is lent to it twice.
//
// For each of the two runs, in plain_calls.rt and guarded_calls.rt: the run of a program as bare words, as text, and as text with a budget
// line; one step of bare words; and for the three forms the check, which only reads all but its answer: what a run is refused with at
// entry, else e3. In traced_calls.rt: the plain run in the three forms, which also writes a step sheet into a buffer of bytes.
//
// A machine is a record of 20 words: registers 0 to 9, pc, clk, psp, the four words of the storage address, and the counts of used cells,
// tape values and output values. The extras of a guarded call are a record of 1 word, whose bit r is the mark of register r. An answer is a
// record of 8 words: 0 for an outcome or 1 for a refusal, its number in document 01, the steps done, the earliest malformed frame of
// refusal 2 (else 0), and the four words of the callee of e1 and e2 (else 0).
//
// Each function takes any arguments and answers, and touches nothing but what it is lent. A call refused at entry writes its answer and
// leaves the rest: the records of machine and extras are written anew and are what they were (`RecordsKept` of crate records).
// include/ola.h is the same for a person.
//
// The functions of one form differ little: C calls each by its name and hands it numbers, slices and records, so none can be generic, and
// none takes buffers in a struct. What they do is done once, in the crates below.
#![tactic(auto)]

mod guarded_calls;
mod plain_calls;
mod traced_calls;

ghost use Rattle.std.specs.Prelude.{◌≡◌};
ghost use Rattle.rules.specs.Answers.{meaning};
ghost use Rattle.rules.specs.Solve.{kilosteps};
ghost use Rattle.records.specs.Records.{machine_record, marks_record, answer_record};

use records::{answer_record, machine_record, marks_record};
use rules::Ran;

// Writes what a call gave into the records of answer and machine.
fn write(ran: Ran, machine: &mut [u64; 20], answer: &mut [u64; 8])
    ensures machine_written { machine.new ≡ machine_record ran.machine }
    ensures answer_written { answer.new ≡ answer_record (meaning ran.answer) ran.steps }
{
    *answer = answer_record(ran.answer, ran.steps);
    *machine = machine_record(ran.machine);
}

// The same of a guarded call, which has a record of its extras too.
fn write_guarded(ran: Ran, machine: &mut [u64; 20], extras: &mut [u64; 1], answer: &mut [u64; 8])
    ensures machine_written { machine.new ≡ machine_record ran.machine }
    ensures extras_written { extras.new ≡ marks_record ran.extras }
    ensures answer_written { answer.new ≡ answer_record (meaning ran.answer) ran.steps }
{
    write(ran, machine, answer);
    *extras = marks_record(ran.extras);
}

// clk in kilosteps, the league's unit.
#[unsafe(no_mangle)]
pub extern "C" fn ola_kilosteps(clk: u64) -> u64
    ensures { result ≡ kilosteps clk }
{
    report::kilosteps(clk)
}
