// The plain calls.
ghost use Rattle.std.specs.Prelude.{◌≡◌};
ghost use Rattle.rules.specs.Text.{load_budget_text};
ghost use Rattle.rules.specs.Calls.{job_program, plain_call, plain_words, plain_text, plain_budget_text};
ghost use Rattle.rules.specs.Handed.{snapshot};
ghost use Rattle.records.specs.Records.{machine_of, answer_record};
ghost use Rattle.ola.specs.Lent.{buffers, plain_left};

use crate::write;
use records::{answer_record, machine_of};

// Runs a program of bare words.
#[unsafe(no_mangle)]
pub extern "C" fn ola_run_words(
    words: &[u64],
    budget: u64,
    machine: &mut [u64; 20],
    addresses: &mut [u64],
    numbers: &mut [u64],
    moments: &mut [u64],
    tape: &mut [u64],
    output: &mut [u64],
    answer: &mut [u64; 8],
)
    ensures { buffers answer.new machine.new
        addresses.new numbers.new moments.new tape.new output.new
        ≡ plain_left (plain_words words.now budget
        (snapshot (machine_of machine.old)
        addresses.old numbers.old moments.old tape.old output.old)) }
{
    let ran = executor::plain::run_words(
        words,
        budget,
        machine_of(*machine),
        addresses,
        numbers,
        moments,
        tape,
        output,
    );
    write(ran, machine, answer);
}

// Takes one step of a program of bare words, of a machine that is lent to it.
#[unsafe(no_mangle)]
pub extern "C" fn ola_step_words(
    words: &[u64],
    machine: &mut [u64; 20],
    addresses: &mut [u64],
    numbers: &mut [u64],
    moments: &mut [u64],
    tape: &mut [u64],
    output: &mut [u64],
    answer: &mut [u64; 8],
)
    ensures { buffers answer.new machine.new
        addresses.new numbers.new moments.new tape.new output.new
        ≡ plain_left (plain_words words.now 1
        (snapshot (machine_of machine.old)
        addresses.old numbers.old moments.old tape.old output.old)) }
{
    let ran = machine::lend_and_step(
        words,
        machine_of(*machine),
        addresses,
        numbers,
        moments,
        tape,
        output,
    );
    write(ran, machine, answer);
}

// Runs a program as text.
#[unsafe(no_mangle)]
pub extern "C" fn ola_run_text(
    text: &[u8],
    budget: u64,
    machine: &mut [u64; 20],
    addresses: &mut [u64],
    numbers: &mut [u64],
    moments: &mut [u64],
    tape: &mut [u64],
    output: &mut [u64],
    answer: &mut [u64; 8],
)
    ensures { buffers answer.new machine.new
        addresses.new numbers.new moments.new tape.new output.new
        ≡ plain_left (plain_text text.now budget
        (snapshot (machine_of machine.old)
        addresses.old numbers.old moments.old tape.old output.old)) }
{
    let ran = executor::plain::run_text(
        text,
        budget,
        machine_of(*machine),
        addresses,
        numbers,
        moments,
        tape,
        output,
    );
    write(ran, machine, answer);
}

// Runs a program as text with a budget line.
#[unsafe(no_mangle)]
pub extern "C" fn ola_run_budget_text(
    text: &[u8],
    machine: &mut [u64; 20],
    addresses: &mut [u64],
    numbers: &mut [u64],
    moments: &mut [u64],
    tape: &mut [u64],
    output: &mut [u64],
    answer: &mut [u64; 8],
)
    ensures { buffers answer.new machine.new
        addresses.new numbers.new moments.new tape.new output.new
        ≡ plain_left (plain_budget_text text.now
        (snapshot (machine_of machine.old)
        addresses.old numbers.old moments.old tape.old output.old)) }
{
    let ran = executor::plain::run_budget_text(
        text,
        machine_of(*machine),
        addresses,
        numbers,
        moments,
        tape,
        output,
    );
    write(ran, machine, answer);
}

// What a run of a program of bare words is refused with at entry; else e3.
#[unsafe(no_mangle)]
pub extern "C" fn ola_check_words(
    words: &[u64],
    machine: &[u64; 20],
    addresses: &[u64],
    numbers: &[u64],
    moments: &[u64],
    tape: &[u64],
    output: &[u64],
    answer: &mut [u64; 8],
)
    ensures { answer.new
        ≡ answer_record (plain_words words.now 0
        (snapshot (machine_of machine.now)
        addresses.now numbers.now moments.now tape.now output.now)
        ).answer 0 }
{
    let given = executor::plain::check_words(
        words,
        machine_of(*machine),
        addresses,
        numbers,
        moments,
        tape,
        output,
    );
    *answer = answer_record(given, 0);
}

// The same of a program as text.
#[unsafe(no_mangle)]
pub extern "C" fn ola_check_text(
    text: &[u8],
    machine: &[u64; 20],
    addresses: &[u64],
    numbers: &[u64],
    moments: &[u64],
    tape: &[u64],
    output: &[u64],
    answer: &mut [u64; 8],
)
    ensures { answer.new
        ≡ answer_record (plain_text text.now 0
        (snapshot (machine_of machine.now)
        addresses.now numbers.now moments.now tape.now output.now)
        ).answer 0 }
{
    let given = executor::plain::check_text(
        text,
        machine_of(*machine),
        addresses,
        numbers,
        moments,
        tape,
        output,
    );
    *answer = answer_record(given, 0);
}

// The same of a program as text with a budget line, whatever its budget.
#[unsafe(no_mangle)]
pub extern "C" fn ola_check_budget_text(
    text: &[u8],
    machine: &[u64; 20],
    addresses: &[u64],
    numbers: &[u64],
    moments: &[u64],
    tape: &[u64],
    output: &[u64],
    answer: &mut [u64; 8],
)
    ensures { answer.new
        ≡ answer_record (plain_call (job_program (load_budget_text text.now)) 0
        (snapshot (machine_of machine.now)
        addresses.now numbers.now moments.now tape.now output.now)
        ).answer 0 }
{
    let given = executor::plain::check_budget_text(
        text,
        machine_of(*machine),
        addresses,
        numbers,
        moments,
        tape,
        output,
    );
    *answer = answer_record(given, 0);
}
