// One machine record, stepped where it is kept.
//
// Public: `step` over a lent `Machine`, and `guarded_step` over a lent `GuardedMachine`. They take any arguments and check them, as
// `executor::plain::step_words` and `executor::guarded::step_words` do, whose definitions their contracts name; they touch nothing but the
// record and the buffers that they are lent. `lend_and_step` and `lend_and_step_guarded` lend a record of their own to these two: they are
// for callers that have a record by value. Demand 3 of the guarded two is `NonInterferingInPlace` (specs/GuardedStepsInPlace.antt, proved in
// proofs/GuardedStepsHold.antt).
//
// README.md names both steps and `NonInterferingInPlace` both guarded functions, so none of them is made of another's; each passes on what
// a step by value gives.
#![tactic(auto)]

ghost use Rattle.std.specs.Prelude.{◌≡◌};
ghost use Rattle.rules.specs.Calls.{plain_words, guarded_words};
ghost use Rattle.rules.specs.Handed.{snapshot, called, guarded_called, no_marks};
ghost use Rattle.machine.specs.Stepping.{stepped, record_snapshot, guarded_stepped};

use rules::{Answer, Machine, Marks, Ran};

// A machine and a guarded run's extras.
#[derive(Clone, Copy)]
pub struct GuardedMachine {
    pub machine: Machine,
    pub extras: Marks,
}

// What a step answered, and the steps done: 1 where the step stands, else 0.
#[derive(Clone, Copy)]
pub struct Answered {
    pub answer: Answer,
    pub steps: u64,
}

// Takes one step of a program of bare words, where the machine is kept.
pub fn step(
    words: &[u64],
    machine: &mut Machine,
    addresses: &mut [u64],
    numbers: &mut [u64],
    moments: &mut [u64],
    tape: &mut [u64],
    output: &mut [u64],
) -> Answered
    ensures { stepped machine.new result
        addresses.new numbers.new moments.new tape.new output.new
        ≡ plain_words words.now 1 (snapshot machine.old
        addresses.old numbers.old moments.old tape.old output.old) }
{
    let ran = executor::plain::step_words(
        words, *machine, addresses, numbers, moments, tape, output,
    );
    *machine = ran.machine;
    Answered {
        answer: ran.answer,
        steps: ran.steps,
    }
}

// Steps a machine by value: lends it to `step`.
pub fn lend_and_step(
    words: &[u64],
    machine: Machine,
    addresses: &mut [u64],
    numbers: &mut [u64],
    moments: &mut [u64],
    tape: &mut [u64],
    output: &mut [u64],
) -> Ran
    ensures output_after { called result addresses.new numbers.new moments.new tape.new output.new
        ≡ plain_words words.now 1 (snapshot machine
        addresses.old numbers.old moments.old tape.old output.old) }
    ensures extras_value { result.extras ≡ no_marks }
{
    let mut record = machine;
    let Answered { answer, steps } = step(
        words,
        &mut record,
        addresses,
        numbers,
        moments,
        tape,
        output,
    );
    Ran {
        answer,
        steps,
        machine: record,
        extras: Marks { registers: 0 },
    }
}

// Takes one guarded step of a program of bare words, where the machine and its extras are kept.
pub fn guarded_step(
    words: &[u64],
    machine: &mut GuardedMachine,
    addresses: &mut [u64],
    numbers: &mut [u64],
    moments: &mut [u64],
    marks: &mut [u64],
    tape: &mut [u64],
    output: &mut [u64],
) -> Answered
    ensures { guarded_stepped machine.new result addresses.new numbers.new moments.new
        marks.new tape.new output.new
        ≡ guarded_words words.now 1 (record_snapshot machine.old
        addresses.old numbers.old moments.old marks.old
        tape.old output.old) }
{
    let ran = executor::guarded::step_words(
        words,
        machine.machine,
        machine.extras,
        addresses,
        numbers,
        moments,
        marks,
        tape,
        output,
    );
    *machine = GuardedMachine {
        machine: ran.machine,
        extras: ran.extras,
    };
    Answered {
        answer: ran.answer,
        steps: ran.steps,
    }
}

// Steps a guarded machine by value: lends it to `guarded_step`.
pub fn lend_and_step_guarded(
    words: &[u64],
    machine: GuardedMachine,
    addresses: &mut [u64],
    numbers: &mut [u64],
    moments: &mut [u64],
    marks: &mut [u64],
    tape: &mut [u64],
    output: &mut [u64],
) -> Ran
    ensures { guarded_called result
        addresses.new numbers.new moments.new marks.new tape.new output.new
        ≡ guarded_words words.now 1 (record_snapshot machine
        addresses.old numbers.old moments.old marks.old
        tape.old output.old) }
{
    let mut record = machine;
    let Answered { answer, steps } = guarded_step(
        words,
        &mut record,
        addresses,
        numbers,
        moments,
        marks,
        tape,
        output,
    );
    Ran {
        answer,
        steps,
        machine: record.machine,
        extras: record.extras,
    }
}
