// The guarded calls. Beside the machine's record, a guarded call has one of its extras.
//
// Demand 3 of each of them, in the words of these records, is `NonInterferingInRecords` (specs/GuardedRecords.antt, proved in
// proofs/GuardedRecordsHold.antt).
ghost use Rattle.std.specs.Prelude.{◌≡◌};
ghost use Rattle.rules.specs.Text.{load_budget_text};
ghost use Rattle.rules.specs.Calls.{job_program, guarded_call, guarded_words, guarded_text, guarded_budget_text};
ghost use Rattle.rules.specs.Handed.{guarded_snapshot};
ghost use Rattle.records.specs.Records.{machine_of, marks_of, answer_record};
ghost use Rattle.ola.specs.Lent.{guarded_buffers, guarded_left};

use crate::write_guarded;
use machine::GuardedMachine;
use records::{answer_record, machine_of, marks_of};

// Runs a program of bare words.
#[unsafe(no_mangle)]
pub extern "C" fn ola_guarded_run_words(
    words: &[u64],
    budget: u64,
    machine: &mut [u64; 20],
    extras: &mut [u64; 1],
    addresses: &mut [u64],
    numbers: &mut [u64],
    moments: &mut [u64],
    marks: &mut [u64],
    tape: &mut [u64],
    output: &mut [u64],
    answer: &mut [u64; 8],
)
    ensures { guarded_buffers answer.new machine.new extras.new
        addresses.new numbers.new moments.new marks.new tape.new output.new
        ≡ guarded_left (guarded_words words.now budget
        (guarded_snapshot (machine_of machine.old) (marks_of extras.old)
        addresses.old numbers.old moments.old marks.old
        tape.old output.old)) }
{
    let ran = executor::guarded::run_words(
        words,
        budget,
        machine_of(*machine),
        marks_of(*extras),
        addresses,
        numbers,
        moments,
        marks,
        tape,
        output,
    );
    write_guarded(ran, machine, extras, answer);
}

// Takes one step of a program of bare words, of a guarded machine that is lent to it.
#[unsafe(no_mangle)]
pub extern "C" fn ola_guarded_step_words(
    words: &[u64],
    machine: &mut [u64; 20],
    extras: &mut [u64; 1],
    addresses: &mut [u64],
    numbers: &mut [u64],
    moments: &mut [u64],
    marks: &mut [u64],
    tape: &mut [u64],
    output: &mut [u64],
    answer: &mut [u64; 8],
)
    ensures { guarded_buffers answer.new machine.new extras.new
        addresses.new numbers.new moments.new marks.new tape.new output.new
        ≡ guarded_left (guarded_words words.now 1
        (guarded_snapshot (machine_of machine.old) (marks_of extras.old)
        addresses.old numbers.old moments.old marks.old
        tape.old output.old)) }
{
    let ran = machine::lend_and_step_guarded(
        words,
        GuardedMachine {
            machine: machine_of(*machine),
            extras: marks_of(*extras),
        },
        addresses,
        numbers,
        moments,
        marks,
        tape,
        output,
    );
    write_guarded(ran, machine, extras, answer);
}

// Runs a program as text.
#[unsafe(no_mangle)]
pub extern "C" fn ola_guarded_run_text(
    text: &[u8],
    budget: u64,
    machine: &mut [u64; 20],
    extras: &mut [u64; 1],
    addresses: &mut [u64],
    numbers: &mut [u64],
    moments: &mut [u64],
    marks: &mut [u64],
    tape: &mut [u64],
    output: &mut [u64],
    answer: &mut [u64; 8],
)
    ensures { guarded_buffers answer.new machine.new extras.new
        addresses.new numbers.new moments.new marks.new tape.new output.new
        ≡ guarded_left (guarded_text text.now budget
        (guarded_snapshot (machine_of machine.old) (marks_of extras.old)
        addresses.old numbers.old moments.old marks.old
        tape.old output.old)) }
{
    let ran = executor::guarded::run_text(
        text,
        budget,
        machine_of(*machine),
        marks_of(*extras),
        addresses,
        numbers,
        moments,
        marks,
        tape,
        output,
    );
    write_guarded(ran, machine, extras, answer);
}

// Runs a program as text with a budget line.
#[unsafe(no_mangle)]
pub extern "C" fn ola_guarded_run_budget_text(
    text: &[u8],
    machine: &mut [u64; 20],
    extras: &mut [u64; 1],
    addresses: &mut [u64],
    numbers: &mut [u64],
    moments: &mut [u64],
    marks: &mut [u64],
    tape: &mut [u64],
    output: &mut [u64],
    answer: &mut [u64; 8],
)
    ensures { guarded_buffers answer.new machine.new extras.new
        addresses.new numbers.new moments.new marks.new tape.new output.new
        ≡ guarded_left (guarded_budget_text text.now
        (guarded_snapshot (machine_of machine.old) (marks_of extras.old)
        addresses.old numbers.old moments.old marks.old
        tape.old output.old)) }
{
    let ran = executor::guarded::run_budget_text(
        text,
        machine_of(*machine),
        marks_of(*extras),
        addresses,
        numbers,
        moments,
        marks,
        tape,
        output,
    );
    write_guarded(ran, machine, extras, answer);
}

// What a run of a program of bare words is refused with at entry; else e3.
#[unsafe(no_mangle)]
pub extern "C" fn ola_guarded_check_words(
    words: &[u64],
    machine: &[u64; 20],
    extras: &[u64; 1],
    addresses: &[u64],
    numbers: &[u64],
    moments: &[u64],
    marks: &[u64],
    tape: &[u64],
    output: &[u64],
    answer: &mut [u64; 8],
)
    ensures { answer.new
        ≡ answer_record (guarded_words words.now 0
        (guarded_snapshot (machine_of machine.now) (marks_of extras.now)
        addresses.now numbers.now moments.now marks.now
        tape.now output.now)
        ).answer 0 }
{
    let given = executor::guarded::check_words(
        words,
        machine_of(*machine),
        marks_of(*extras),
        addresses,
        numbers,
        moments,
        marks,
        tape,
        output,
    );
    *answer = answer_record(given, 0);
}

// The same of a program as text.
#[unsafe(no_mangle)]
pub extern "C" fn ola_guarded_check_text(
    text: &[u8],
    machine: &[u64; 20],
    extras: &[u64; 1],
    addresses: &[u64],
    numbers: &[u64],
    moments: &[u64],
    marks: &[u64],
    tape: &[u64],
    output: &[u64],
    answer: &mut [u64; 8],
)
    ensures { answer.new
        ≡ answer_record (guarded_text text.now 0
        (guarded_snapshot (machine_of machine.now) (marks_of extras.now)
        addresses.now numbers.now moments.now marks.now
        tape.now output.now)
        ).answer 0 }
{
    let given = executor::guarded::check_text(
        text,
        machine_of(*machine),
        marks_of(*extras),
        addresses,
        numbers,
        moments,
        marks,
        tape,
        output,
    );
    *answer = answer_record(given, 0);
}

// The same of a program as text with a budget line, whatever its budget.
#[unsafe(no_mangle)]
pub extern "C" fn ola_guarded_check_budget_text(
    text: &[u8],
    machine: &[u64; 20],
    extras: &[u64; 1],
    addresses: &[u64],
    numbers: &[u64],
    moments: &[u64],
    marks: &[u64],
    tape: &[u64],
    output: &[u64],
    answer: &mut [u64; 8],
)
    ensures { answer.new
        ≡ answer_record (guarded_call (job_program (load_budget_text text.now)) 0
        (guarded_snapshot (machine_of machine.now) (marks_of extras.now)
        addresses.now numbers.now moments.now marks.now
        tape.now output.now)
        ).answer 0 }
{
    let given = executor::guarded::check_budget_text(
        text,
        machine_of(*machine),
        marks_of(*extras),
        addresses,
        numbers,
        moments,
        marks,
        tape,
        output,
    );
    *answer = answer_record(given, 0);
}
