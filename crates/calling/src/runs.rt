// Calls that run a program.
//
// The six buffers that a run writes stay parameters of their own, here and below. As a struct of `&mut` they were tried: where a function
// hands such a struct on whole, the check knows nothing of what is left behind its references; and a clause would call the output
// `buffers.exit.1.1.1.1.1.0.now`. So each asks that a plain call is handed no marks.
ghost use Rattle.std.specs.Prelude.{◌≡◌, ◌+◌, ◌≤◌, length, replicate};
ghost use Rattle.rules.specs.declared.Answer.TheVariants.{Refused};
ghost use Rattle.rules.specs.Numbers.{word_limit};
ghost use Rattle.rules.specs.Results.{pass};
ghost use Rattle.rules.specs.Frames.{load_words};
ghost use Rattle.rules.specs.Handed.{guarded_called};
ghost use Rattle.program.specs.Table.{program_of, word_slot, empty_row, EmptyRows};
ghost use Rattle.interpreter.specs.Runs.{handed};
ghost use Rattle.checking.specs.ModeCalls.{mode_call, PlainHasNoMarks};

use checking::HandedIn;
use checking::programs::Program;
use effects::Mode;
use program::binary_program::WORD_LIMIT;
use program::table;
use program::table::{Loaded, Row};
use rules::{Answer, Machine, Ran, Refusal};

// A call refused at entry.
fn refuse(mode: Mode, machine: Machine, refusal: Refusal) -> Ran
    ensures { result ≡ record { answer = Refused refusal; steps = 0; machine = machine; extras = mode.extras } }
{
    Ran {
        answer: Answer::Refused(refusal),
        steps: 0,
        machine,
        extras: mode.extras,
    }
}

// Runs a loaded program, if what is handed in is fit. The run is called at two places, each with its flag: called at one, or with a flag
// that is not known there, it would be compiled into its caller, and a step would take a tenth more instructions.
fn enter(
    mode: Mode,
    program: Loaded,
    budget: u64,
    machine: Machine,
    addresses: &mut [u64],
    numbers: &mut [u64],
    moments: &mut [u64],
    marks: &mut [u64],
    tape: &mut [u64],
    output: &mut [u64],
    values: &mut [u64],
) -> Ran
    requires words_in_bounds { word_slot + length program.words.now ≤ length values.old }
    requires plain_has_no_marks { PlainHasNoMarks mode marks.old }
    ensures { guarded_called result addresses.new numbers.new moments.new marks.new
        tape.new output.new
        ≡ mode_call mode.guarded (pass (program_of program.entry.words.now)) budget
        (handed mode machine addresses.old numbers.old moments.old marks.old
        tape.old output.old) }
{
    let given = HandedIn {
        mode,
        machine,
        addresses,
        numbers,
        moments,
        marks,
        tape,
        output,
    };
    if given.is_fit() {
        if mode.guarded {
            let guarded = Mode {
                guarded: true,
                ..mode
            };
            return interpreter::run(
                guarded, program, budget, machine, addresses, numbers, moments, marks, tape,
                output, values,
            );
        }
        let plain = Mode {
            guarded: false,
            ..mode
        };
        return interpreter::run(
            plain, program, budget, machine, addresses, numbers, moments, marks, tape, output,
            values,
        );
    }
    refuse(mode, machine, Refusal::BadState)
}

// Loads a program of bare words into a table of so many rows, beside so many values, and runs it.
fn load_and_enter<const ROWS: usize, const VALUES: usize>(
    mode: Mode,
    words: &[u64],
    budget: u64,
    machine: Machine,
    addresses: &mut [u64],
    numbers: &mut [u64],
    moments: &mut [u64],
    marks: &mut [u64],
    tape: &mut [u64],
    output: &mut [u64],
) -> Ran
    requires empty_rows { EmptyRows words.now (replicate ROWS empty_row) }
    requires words_in_bounds { length words.now ≤ word_limit → word_slot + length words.now ≤ VALUES }
    requires values_bound { VALUES ≤ word_slot + word_limit }
    requires plain_has_no_marks { PlainHasNoMarks mode marks.old }
    ensures { guarded_called result addresses.new numbers.new moments.new marks.new
        tape.new output.new
        ≡ mode_call mode.guarded (load_words words.now) budget
        (handed mode machine addresses.old numbers.old moments.old marks.old
        tape.old output.old) }
{
    let mut rows = [Row::EMPTY; ROWS];
    let mut values = [0u64; VALUES];
    match Loaded::load(words, &mut rows) {
        Ok(program) => enter(
            mode,
            program,
            budget,
            machine,
            addresses,
            numbers,
            moments,
            marks,
            tape,
            output,
            &mut values,
        ),
        Err(refusal) => refuse(mode, machine, refusal),
    }
}

// Runs a program of bare words, with a table of the first of three sizes that is enough: a smaller one is cleared sooner. Public, as
// docs/PAPER.md names it.
pub fn run_words(
    mode: Mode,
    words: &[u64],
    budget: u64,
    machine: Machine,
    addresses: &mut [u64],
    numbers: &mut [u64],
    moments: &mut [u64],
    marks: &mut [u64],
    tape: &mut [u64],
    output: &mut [u64],
) -> Ran
    requires { PlainHasNoMarks mode marks.old }
    ensures { guarded_called result addresses.new numbers.new moments.new marks.new
        tape.new output.new
        ≡ mode_call mode.guarded (load_words words.now) budget
        (handed mode machine addresses.old numbers.old moments.old marks.old
        tape.old output.old) }
{
    if words.len() <= table::TINY_WORDS {
        return load_and_enter::<{ table::TINY_ROWS }, { table::TINY_VALUES }>(
            mode, words, budget, machine, addresses, numbers, moments, marks, tape, output,
        );
    }
    if words.len() <= table::SHORT_WORDS {
        return load_and_enter::<{ table::SHORT_ROWS }, { table::SHORT_VALUES }>(
            mode, words, budget, machine, addresses, numbers, moments, marks, tape, output,
        );
    }
    load_and_enter::<{ table::ROWS }, { table::VALUES }>(
        mode, words, budget, machine, addresses, numbers, moments, marks, tape, output,
    )
}

// Runs a program in any form.
pub fn run<P: Program>(
    mode: Mode,
    program: P,
    machine: Machine,
    addresses: &mut [u64],
    numbers: &mut [u64],
    moments: &mut [u64],
    marks: &mut [u64],
    tape: &mut [u64],
    output: &mut [u64],
) -> Ran
    requires { PlainHasNoMarks mode marks.old }
    ensures { guarded_called result addresses.new numbers.new moments.new marks.new
        tape.new output.new
        ≡ mode_call mode.guarded (P.loaded program) (P.budget program)
        (handed mode machine addresses.old numbers.old moments.old marks.old
        tape.old output.old) }
{
    let mut buffer = [0u64; WORD_LIMIT];
    match program.load(&mut buffer) {
        Ok(job) => run_words(
            mode, job.words, job.budget, machine, addresses, numbers, moments, marks, tape, output,
        ),
        Err(refusal) => refuse(mode, machine, refusal),
    }
}
