// The guarded machine's public functions: the guarded run of document 01, on programs as bare words, as text, and as text with a budget
// line. Each takes any arguments, checks them, and answers. They touch nothing but the buffers that they are lent; a call refused at entry
// leaves everything handed in. The functions `check_..` make the entry's tests alone: they answer as a run with budget 0 does, and only
// read what is lent.
//
// Demand 3 is `NonInterfering` (specs/GuardedFunctions.antt, proved in proofs/GuardedFunctionsHold.antt): one theorem about whole calls,
// entry refusals included, of the definition that each function's contract names. Its three parts:
// - two calls that start alike but for their marked numbers, each below p, give the same answer after the same steps and end alike;
// - a call that does not meet refusal 18 is the plain call, and one that meets it after k steps leaves what the plain call with budget k
//   leaves, which is e3 after k steps;
// - 18 comes after k steps exactly where the step that follows them reaches a sink with a marked number.
// It says nothing of time, nor of which places of memory are touched; the number of steps is public.
//
// That they stand beside those of `plain`, and why, is said there.
ghost use Rattle.std.specs.Prelude.{◌≡◌, true};
ghost use Rattle.rules.specs.Text.{load_budget_text};
ghost use Rattle.rules.specs.Answers.{meaning};
ghost use Rattle.rules.specs.Calls.{job_program, guarded_call, guarded_words, guarded_text, guarded_budget_text};
ghost use Rattle.rules.specs.Handed.{guarded_snapshot, guarded_called};

use checking::HandedIn;
use checking::programs::{BudgetText, Text, Words};
use effects::Mode;
use rules::{Answer, Machine, Marks, Ran};

// Runs a program of bare words.
#[tactic(auto, unfolding(checking::specs::ModeCalls::mode_call, rules::specs::Calls::guarded_words))]
pub fn run_words(
    words: &[u64],
    budget: u64,
    machine: Machine,
    extras: Marks,
    addresses: &mut [u64],
    numbers: &mut [u64],
    moments: &mut [u64],
    marks: &mut [u64],
    tape: &mut [u64],
    output: &mut [u64],
) -> Ran
    ensures { guarded_called result addresses.new numbers.new moments.new marks.new
        tape.new output.new
        ≡ guarded_words words.now budget
        (guarded_snapshot machine extras addresses.old numbers.old moments.old marks.old
        tape.old output.old) }
{
    calling::runs::run(
        Mode {
            guarded: true,
            extras,
        },
        Words { words, budget },
        machine,
        addresses,
        numbers,
        moments,
        marks,
        tape,
        output,
    )
}

// Takes one step of a program of bare words.
pub fn step_words(
    words: &[u64],
    machine: Machine,
    extras: Marks,
    addresses: &mut [u64],
    numbers: &mut [u64],
    moments: &mut [u64],
    marks: &mut [u64],
    tape: &mut [u64],
    output: &mut [u64],
) -> Ran
    ensures { guarded_called result addresses.new numbers.new moments.new marks.new
        tape.new output.new
        ≡ guarded_words words.now 1
        (guarded_snapshot machine extras addresses.old numbers.old moments.old marks.old
        tape.old output.old) }
{
    run_words(
        words, 1, machine, extras, addresses, numbers, moments, marks, tape, output,
    )
}

// Runs a program as text.
#[tactic(auto, unfolding(checking::specs::ModeCalls::mode_call, rules::specs::Calls::guarded_text))]
pub fn run_text(
    text: &[u8],
    budget: u64,
    machine: Machine,
    extras: Marks,
    addresses: &mut [u64],
    numbers: &mut [u64],
    moments: &mut [u64],
    marks: &mut [u64],
    tape: &mut [u64],
    output: &mut [u64],
) -> Ran
    ensures { guarded_called result addresses.new numbers.new moments.new marks.new
        tape.new output.new
        ≡ guarded_text text.now budget
        (guarded_snapshot machine extras addresses.old numbers.old moments.old marks.old
        tape.old output.old) }
{
    calling::runs::run(
        Mode {
            guarded: true,
            extras,
        },
        Text { text, budget },
        machine,
        addresses,
        numbers,
        moments,
        marks,
        tape,
        output,
    )
}

// Runs a program as text with a budget line.
pub fn run_budget_text(
    text: &[u8],
    machine: Machine,
    extras: Marks,
    addresses: &mut [u64],
    numbers: &mut [u64],
    moments: &mut [u64],
    marks: &mut [u64],
    tape: &mut [u64],
    output: &mut [u64],
) -> Ran
    ensures { guarded_called result addresses.new numbers.new moments.new marks.new
        tape.new output.new
        ≡ guarded_budget_text text.now (guarded_snapshot machine extras addresses.old numbers.old moments.old marks.old
        tape.old output.old) }
{
    calling::runs::run(
        Mode {
            guarded: true,
            extras,
        },
        BudgetText { text },
        machine,
        addresses,
        numbers,
        moments,
        marks,
        tape,
        output,
    )
}

// What a run of a program of bare words is refused with at entry; else e3.
#[tactic(auto, unfolding(checking::specs::ModeCalls::mode_call, rules::specs::Calls::guarded_words))]
pub fn check_words(
    words: &[u64],
    machine: Machine,
    extras: Marks,
    addresses: &[u64],
    numbers: &[u64],
    moments: &[u64],
    marks: &[u64],
    tape: &[u64],
    output: &[u64],
) -> Answer
    ensures { meaning result
        ≡ (guarded_words words.now 0
        (guarded_snapshot machine extras addresses.now numbers.now moments.now marks.now
        tape.now output.now)
        ).answer }
{
    checking::check(
        Words { words, budget: 0 },
        &HandedIn {
            mode: Mode {
                guarded: true,
                extras,
            },
            machine,
            addresses,
            numbers,
            moments,
            marks,
            tape,
            output,
        },
    )
}

// The same of a program as text.
#[tactic(auto, unfolding(checking::specs::ModeCalls::mode_call, rules::specs::Calls::guarded_text))]
pub fn check_text(
    text: &[u8],
    machine: Machine,
    extras: Marks,
    addresses: &[u64],
    numbers: &[u64],
    moments: &[u64],
    marks: &[u64],
    tape: &[u64],
    output: &[u64],
) -> Answer
    ensures { meaning result
        ≡ (guarded_text text.now 0
        (guarded_snapshot machine extras addresses.now numbers.now moments.now marks.now
        tape.now output.now)
        ).answer }
{
    checking::check(
        Text { text, budget: 0 },
        &HandedIn {
            mode: Mode {
                guarded: true,
                extras,
            },
            machine,
            addresses,
            numbers,
            moments,
            marks,
            tape,
            output,
        },
    )
}

// The same of a program as text with a budget line, whatever its budget.
#[tactic(auto, unfolding(checking::specs::ModeCalls::mode_call))]
pub fn check_budget_text(
    text: &[u8],
    machine: Machine,
    extras: Marks,
    addresses: &[u64],
    numbers: &[u64],
    moments: &[u64],
    marks: &[u64],
    tape: &[u64],
    output: &[u64],
) -> Answer
    ensures { meaning result
        ≡ (guarded_call (job_program (load_budget_text text.now)) 0
        (guarded_snapshot machine extras addresses.now numbers.now moments.now marks.now
        tape.now output.now)
        ).answer }
{
    checking::check(
        BudgetText { text },
        &HandedIn {
            mode: Mode {
                guarded: true,
                extras,
            },
            machine,
            addresses,
            numbers,
            moments,
            marks,
            tape,
            output,
        },
    )
}
