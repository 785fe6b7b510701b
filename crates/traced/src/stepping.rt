// Traced steps, one after the other: each is a plain step, and a line of the sheet. That what is handed in passed entry is asked of each:
// the buffers are `&mut`, so that no struct could keep it (`calling::runs`).
ghost use Rattle.std.specs.Prelude.{◌≡◌, true, List, ℕ, ◌+◌, ◌*◌, ◌≤◌, length, take};
ghost use Rattle.rules.specs.Results.{pass};
ghost use Rattle.rules.specs.Entry.{plain_entry};
ghost use Rattle.rules.specs.Handed.{snapshot, no_marks};
ghost use Rattle.program.specs.Table.{program_of, word_slot};
ghost use Rattle.sheets.specs.Lines.{line_bytes};
ghost use Rattle.sheets.specs.TracedCalls.{traced_snapshot, traced_called, traced_call};
ghost use Rattle.sheets.specs.TracedEnds.{end_of};
ghost use Rattle.traced.specs.Steps.{PlainStep, PlainAnswer, short_answer, TracedStep};

use effects::Mode;
use program::table::Loaded;
use rules::{Answer, Machine, Marks, Ran, Refusal};

// A call or a run that does no step.
pub(crate) fn stop(answer: Answer, machine: Machine) -> Ran
    ensures { result ≡ record { answer = answer; steps = 0; machine = machine; extras = no_marks } }
{
    Ran {
        answer,
        steps: 0,
        machine,
        extras: Marks { registers: 0 },
    }
}

// The plain step.
fn plain_step(
    program: Loaded,
    machine: Machine,
    addresses: &mut [u64],
    numbers: &mut [u64],
    moments: &mut [u64],
    tape: &mut [u64],
    output: &mut [u64],
    values: &mut [u64],
) -> Ran
    requires words_in_bounds { word_slot + length program.words.now ≤ length values.old }
    requires output_value { plain_entry (snapshot machine addresses.old numbers.old moments.old tape.old output.old) ≡ true }
    ensures { PlainStep (program_of program.entry.words.now)
        (snapshot machine addresses.old numbers.old moments.old
        tape.old output.old)
        result (snapshot result.machine addresses.new numbers.new moments.new
        tape.new output.new) }
{
    interpreter::run(
        Mode::PLAIN,
        program,
        1,
        machine,
        addresses,
        numbers,
        moments,
        &mut [],
        tape,
        output,
        values,
    )
}

// Copies a buffer to the front of an array where that stands: an array given back by value would be copied again, twice.
fn copy<const N: usize>(buffer: &[u64], array: &mut [u64; N])
    requires { length buffer.now ≤ N }
    ensures { take (length buffer.now) array.new ≡ buffer.now }
{
    storing::tape::write_values(buffer, array);
}

// The plain step on copies, to see what it would answer.
fn try_step(
    program: Loaded,
    machine: Machine,
    addresses: &[u64],
    numbers: &[u64],
    moments: &[u64],
    tape: &[u64],
    output: &[u64],
    values: &mut [u64],
) -> Ran
    requires words_in_bounds { word_slot + length program.words.now ≤ length values.old }
    requires output_value { plain_entry (snapshot machine addresses.now numbers.now moments.now tape.now output.now) ≡ true }
    ensures { PlainAnswer (program_of program.entry.words.now)
        (snapshot machine addresses.now numbers.now moments.now
        tape.now output.now) result }
{
    let mut tried_addresses = [0; entry::CELL_LIMIT];
    let mut tried_numbers = [0; entry::CELL_LIMIT];
    let mut tried_moments = [0; entry::CELL_LIMIT];
    let mut tried_tape = [0; entry::VALUE_LIMIT];
    let mut tried_output = [0; entry::VALUE_LIMIT];
    copy(addresses, &mut tried_addresses);
    copy(numbers, &mut tried_numbers);
    copy(moments, &mut tried_moments);
    copy(tape, &mut tried_tape);
    copy(output, &mut tried_output);
    plain_step(
        program,
        machine,
        &mut tried_addresses[..addresses.len()],
        &mut tried_numbers[..numbers.len()],
        &mut tried_moments[..moments.len()],
        &mut tried_tape[..tape.len()],
        &mut tried_output[..output.len()],
        values,
    )
}

// The step where the sheet is too short for its line: what else refuses it goes first. It is tried on copies, since it must leave nothing.
fn step_without_line(
    program: Loaded,
    machine: Machine,
    addresses: &[u64],
    numbers: &[u64],
    moments: &[u64],
    tape: &[u64],
    output: &[u64],
    values: &mut [u64],
) -> Ran
    requires words_in_bounds { word_slot + length program.words.now ≤ length values.old }
    requires output_value { plain_entry (snapshot machine addresses.now numbers.now moments.now tape.now output.now) ≡ true }
    ensures { result ≡ record {
      answer = short_answer (program_of program.entry.words.now)
          (snapshot machine addresses.now numbers.now moments.now
          tape.now output.now);
      steps = 0;
      machine = machine;
      extras = no_marks;
    } }
{
    let tried = try_step(
        program, machine, addresses, numbers, moments, tape, output, values,
    );
    if tried.steps == 0 {
        return stop(tried.answer, machine);
    }
    stop(Answer::ShortBuffer, machine)
}

// One traced step, whose line begins at a place of the sheet.
fn step(
    program: Loaded,
    at: usize,
    machine: Machine,
    addresses: &mut [u64],
    numbers: &mut [u64],
    moments: &mut [u64],
    tape: &mut [u64],
    output: &mut [u64],
    values: &mut [u64],
    sheet: &mut [u8],
) -> Ran
    requires words_in_bounds { word_slot + length program.words.now ≤ length values.old }
    requires output_value { plain_entry (snapshot machine addresses.old numbers.old moments.old tape.old output.old) ≡ true }
    requires at_in_bounds { at ≤ length sheet.old }
    ensures { (ls : List (List ℕ)) → at ≡ line_bytes * length ls
        → TracedStep (end_of (program_of program.entry.words.now) (length sheet.old) 1
        (snapshot machine addresses.old numbers.old moments.old
        tape.old output.old) ls)
        ls at sheet.old
        result (snapshot result.machine addresses.new numbers.new moments.new
        tape.new output.new)
        sheet.new }
{
    let look = looking::look(program, machine, addresses, values);
    if look.unread {
        return stop(Answer::Refused(Refusal::CellAbsent), machine);
    }
    if sheet.len() - at < sheet_lines::LINE_BYTES {
        return step_without_line(
            program, machine, addresses, numbers, moments, tape, output, values,
        );
    }
    let ran = plain_step(
        program, machine, addresses, numbers, moments, tape, output, values,
    );
    if ran.steps == 0 {
        return ran;
    }
    let dst = ran.machine.registers[look.dst];
    let line = sheet_lines::line_words(machine, look.present, look.op0, look.op1, dst);
    sheet_lines::put_line(at, &line, sheet);
    ran
}

// The steps of a budget, from what passed entry.
pub(crate) fn run(
    program: Loaded,
    budget: u64,
    start: Machine,
    addresses: &mut [u64],
    numbers: &mut [u64],
    moments: &mut [u64],
    tape: &mut [u64],
    output: &mut [u64],
    values: &mut [u64],
    sheet: &mut [u8],
) -> Ran
    requires words_in_bounds { word_slot + length program.words.now ≤ length values.old }
    requires output_value { plain_entry (snapshot start addresses.old numbers.old moments.old tape.old output.old) ≡ true }
    ensures sheet_after { traced_called result addresses.new numbers.new moments.new tape.new
        output.new sheet.new
        ≡ traced_call (pass (program_of program.entry.words.now)) budget
        (traced_snapshot start addresses.old numbers.old moments.old tape.old
        output.old sheet.old) }
    ensures extras_value { result.extras ≡ no_marks }
{
    let mut machine = start;
    let mut at = 0;
    for done in 0..budget {
        let ran = step(
            program, at, machine, addresses, numbers, moments, tape, output, values, sheet,
        );
        let Answer::Paused = ran.answer else {
            return Ran {
                steps: done + ran.steps,
                ..ran
            };
        };
        machine = ran.machine;
        at += sheet_lines::LINE_BYTES;
    }
    Ran {
        steps: budget,
        ..stop(Answer::Paused, machine)
    }
}
