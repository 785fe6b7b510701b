// Traced runs: plain runs that also write a step sheet, a line of 16 words for each accepted step. Programs come as bare words, as text,
// and as text with a budget line.
//
// Public: `run_words`, `run_text`, `run_budget_text`. Each takes any arguments, checks them as a plain call does, and answers. They touch
// nothing but the buffers that they are lent; the sheet is filled from its start, and what stands behind its lines stays. The other
// functions are private or internal to the crate. README.md names the three, so they stay; `run` does what they do. Why the buffers are no
// struct is said in `calling::runs`.
#![tactic(auto)]

mod stepping;

ghost use Rattle.std.specs.Prelude.{◌≡◌, ◌+◌, ◌≤◌, length};
ghost use Rattle.rules.specs.Results.{pass};
ghost use Rattle.rules.specs.Frames.{load_words};
ghost use Rattle.rules.specs.Handed.{no_marks};
ghost use Rattle.sheets.specs.TracedCalls.{traced_snapshot, traced_called, traced_call, traced_words, traced_text, traced_budget_text};
ghost use Rattle.program.specs.Table.{program_of, word_slot};

use checking::programs::{BudgetText, Program, Text, Words};
use program::binary_program::WORD_LIMIT;
use program::table;
use program::table::{Loaded, Row};
use rules::{Answer, Machine, Ran, Refusal};

// The bytes of a line: 16 digits for each of its words, and a line feed.
pub const LINE_BYTES: usize = sheet_lines::LINE_BYTES;

// Runs a loaded program, if what is handed in is fit.
fn enter(
    program: Loaded,
    budget: u64,
    machine: Machine,
    addresses: &mut [u64],
    numbers: &mut [u64],
    moments: &mut [u64],
    tape: &mut [u64],
    output: &mut [u64],
    values: &mut [u64],
    sheet: &mut [u8],
) -> Ran
    requires { word_slot + length program.words.now ≤ length values.old }
    ensures sheet_after { traced_called result addresses.new numbers.new moments.new tape.new
        output.new sheet.new
        ≡ traced_call (pass (program_of program.entry.words.now)) budget
        (traced_snapshot machine addresses.old numbers.old moments.old tape.old
        output.old sheet.old) }
    ensures extras_value { result.extras ≡ no_marks }
{
    if entry::accepts(machine, addresses, numbers, moments, tape, output) {
        return stepping::run(
            program, budget, machine, addresses, numbers, moments, tape, output, values, sheet,
        );
    }
    stepping::stop(Answer::Refused(Refusal::BadState), machine)
}

// Loads a program of bare words, and runs it.
fn load_and_enter(
    words: &[u64],
    budget: u64,
    machine: Machine,
    addresses: &mut [u64],
    numbers: &mut [u64],
    moments: &mut [u64],
    tape: &mut [u64],
    output: &mut [u64],
    sheet: &mut [u8],
) -> Ran
    ensures sheet_after { traced_called result addresses.new numbers.new moments.new tape.new
        output.new sheet.new
        ≡ traced_call (load_words words.now) budget
        (traced_snapshot machine addresses.old numbers.old moments.old tape.old
        output.old sheet.old) }
    ensures extras_value { result.extras ≡ no_marks }
{
    let mut rows = [Row::EMPTY; table::ROWS];
    let mut values = [0u64; table::VALUES];
    match Loaded::load(words, &mut rows) {
        Ok(program) => enter(
            program,
            budget,
            machine,
            addresses,
            numbers,
            moments,
            tape,
            output,
            &mut values,
            sheet,
        ),
        Err(refusal) => stepping::stop(Answer::Refused(refusal), machine),
    }
}

// Runs a program in any form.
fn run<P: Program>(
    program: P,
    machine: Machine,
    addresses: &mut [u64],
    numbers: &mut [u64],
    moments: &mut [u64],
    tape: &mut [u64],
    output: &mut [u64],
    sheet: &mut [u8],
) -> Ran
    ensures sheet_after { traced_called result addresses.new numbers.new moments.new tape.new
        output.new sheet.new
        ≡ traced_call (P.loaded program) (P.budget program)
        (traced_snapshot machine addresses.old numbers.old moments.old tape.old
        output.old sheet.old) }
    ensures extras_value { result.extras ≡ no_marks }
{
    let mut buffer = [0u64; WORD_LIMIT];
    match program.load(&mut buffer) {
        Ok(job) => load_and_enter(
            job.words, job.budget, machine, addresses, numbers, moments, tape, output, sheet,
        ),
        Err(refusal) => stepping::stop(Answer::Refused(refusal), machine),
    }
}

// Runs a program of bare words.
#[tactic(auto, unfolding(sheets::specs::TracedCalls::traced_words))]
pub fn run_words(
    words: &[u64],
    budget: u64,
    machine: Machine,
    addresses: &mut [u64],
    numbers: &mut [u64],
    moments: &mut [u64],
    tape: &mut [u64],
    output: &mut [u64],
    sheet: &mut [u8],
) -> Ran
    ensures sheet_after { traced_called result addresses.new numbers.new moments.new tape.new
        output.new sheet.new
        ≡ traced_words words.now budget
        (traced_snapshot machine addresses.old numbers.old moments.old tape.old
        output.old sheet.old) }
    ensures extras_value { result.extras ≡ no_marks }
{
    run(
        Words { words, budget },
        machine,
        addresses,
        numbers,
        moments,
        tape,
        output,
        sheet,
    )
}

// Runs a program as text.
#[tactic(auto, unfolding(sheets::specs::TracedCalls::traced_text))]
pub fn run_text(
    text: &[u8],
    budget: u64,
    machine: Machine,
    addresses: &mut [u64],
    numbers: &mut [u64],
    moments: &mut [u64],
    tape: &mut [u64],
    output: &mut [u64],
    sheet: &mut [u8],
) -> Ran
    ensures sheet_after { traced_called result addresses.new numbers.new moments.new tape.new
        output.new sheet.new
        ≡ traced_text text.now budget
        (traced_snapshot machine addresses.old numbers.old moments.old tape.old
        output.old sheet.old) }
    ensures extras_value { result.extras ≡ no_marks }
{
    run(
        Text { text, budget },
        machine,
        addresses,
        numbers,
        moments,
        tape,
        output,
        sheet,
    )
}

// Runs a program as text with a budget line.
#[tactic(auto, unfolding(sheets::specs::TracedCalls::traced_budget_text))]
pub fn run_budget_text(
    text: &[u8],
    machine: Machine,
    addresses: &mut [u64],
    numbers: &mut [u64],
    moments: &mut [u64],
    tape: &mut [u64],
    output: &mut [u64],
    sheet: &mut [u8],
) -> Ran
    ensures sheet_after { traced_called result addresses.new numbers.new moments.new tape.new
        output.new sheet.new
        ≡ traced_budget_text text.now
        (traced_snapshot machine addresses.old numbers.old moments.old tape.old
        output.old sheet.old) }
    ensures extras_value { result.extras ≡ no_marks }
{
    run(
        BudgetText { text },
        machine,
        addresses,
        numbers,
        moments,
        tape,
        output,
        sheet,
    )
}
