// The traced calls.
ghost use Rattle.std.specs.Prelude.{◌≡◌};
ghost use Rattle.sheets.specs.TracedCalls.{traced_snapshot, traced_words, traced_text, traced_budget_text};
ghost use Rattle.records.specs.Records.{machine_of};
ghost use Rattle.ola.specs.Lent.{traced_buffers, traced_left};

use crate::write;
use records::machine_of;

// Runs a program of bare words.
#[unsafe(no_mangle)]
pub extern "C" fn ola_traced_run_words(
    words: &[u64],
    budget: u64,
    machine: &mut [u64; 20],
    addresses: &mut [u64],
    numbers: &mut [u64],
    moments: &mut [u64],
    tape: &mut [u64],
    output: &mut [u64],
    sheet: &mut [u8],
    answer: &mut [u64; 8],
)
    ensures { traced_buffers answer.new machine.new
        addresses.new numbers.new moments.new tape.new output.new sheet.new
        ≡ traced_left (traced_words words.now budget
        (traced_snapshot (machine_of machine.old)
        addresses.old numbers.old moments.old
        tape.old output.old sheet.old)) }
{
    let ran = traced::run_words(
        words,
        budget,
        machine_of(*machine),
        addresses,
        numbers,
        moments,
        tape,
        output,
        sheet,
    );
    write(ran, machine, answer);
}

// Runs a program as text.
#[unsafe(no_mangle)]
pub extern "C" fn ola_traced_run_text(
    text: &[u8],
    budget: u64,
    machine: &mut [u64; 20],
    addresses: &mut [u64],
    numbers: &mut [u64],
    moments: &mut [u64],
    tape: &mut [u64],
    output: &mut [u64],
    sheet: &mut [u8],
    answer: &mut [u64; 8],
)
    ensures { traced_buffers answer.new machine.new
        addresses.new numbers.new moments.new tape.new output.new sheet.new
        ≡ traced_left (traced_text text.now budget
        (traced_snapshot (machine_of machine.old)
        addresses.old numbers.old moments.old
        tape.old output.old sheet.old)) }
{
    let ran = traced::run_text(
        text,
        budget,
        machine_of(*machine),
        addresses,
        numbers,
        moments,
        tape,
        output,
        sheet,
    );
    write(ran, machine, answer);
}

// Runs a program as text with a budget line.
#[unsafe(no_mangle)]
pub extern "C" fn ola_traced_run_budget_text(
    text: &[u8],
    machine: &mut [u64; 20],
    addresses: &mut [u64],
    numbers: &mut [u64],
    moments: &mut [u64],
    tape: &mut [u64],
    output: &mut [u64],
    sheet: &mut [u8],
    answer: &mut [u64; 8],
)
    ensures { traced_buffers answer.new machine.new
        addresses.new numbers.new moments.new tape.new output.new sheet.new
        ≡ traced_left (traced_budget_text text.now
        (traced_snapshot (machine_of machine.old)
        addresses.old numbers.old moments.old
        tape.old output.old sheet.old)) }
{
    let ran = traced::run_budget_text(
        text,
        machine_of(*machine),
        addresses,
        numbers,
        moments,
        tape,
        output,
        sheet,
    );
    write(ran, machine, answer);
}
