// The plain machine's public functions, on programs as bare words, as text, and as text with a budget line. Each takes any arguments,
// checks them, and answers. They touch nothing but the buffers that they are lent; a call refused at entry leaves everything handed in.
// The functions `check_..` make the entry's tests alone: they answer as a run with budget 0 does, and only read what is lent.
//
// README.md names each of them and those of `guarded`, so both stay, one for each form of program; all that they do is done once, by
// `calling::runs::run` and `checking::check`.
ghost use Rattle.std.specs.Prelude.{◌≡◌};
ghost use Rattle.rules.specs.Text.{load_budget_text};
ghost use Rattle.rules.specs.Answers.{meaning};
ghost use Rattle.rules.specs.Calls.{job_program, plain_call, plain_words, plain_text, plain_budget_text};
ghost use Rattle.rules.specs.Handed.{snapshot, called, no_marks};

use checking::HandedIn;
use checking::programs::{BudgetText, Text, Words};
use effects::Mode;
use rules::{Answer, Machine, Ran};

// A plain run has no marks.
const MODE: Mode = Mode::PLAIN;

// Runs a program of bare words.
#[tactic(auto, unfolding(checking::specs::ModeCalls::mode_call, rules::specs::Calls::plain_words))]
pub fn run_words(
    words: &[u64],
    budget: u64,
    machine: Machine,
    addresses: &mut [u64],
    numbers: &mut [u64],
    moments: &mut [u64],
    tape: &mut [u64],
    output: &mut [u64],
) -> Ran
    ensures output_after { called result addresses.new numbers.new moments.new tape.new output.new
        ≡ plain_words words.now budget
        (snapshot machine addresses.old numbers.old moments.old
        tape.old output.old) }
    ensures extras_value { result.extras ≡ no_marks }
{
    calling::runs::run(
        MODE,
        Words { words, budget },
        machine,
        addresses,
        numbers,
        moments,
        &mut [],
        tape,
        output,
    )
}

// Takes one step of a program of bare words.
pub fn step_words(
    words: &[u64],
    machine: Machine,
    addresses: &mut [u64],
    numbers: &mut [u64],
    moments: &mut [u64],
    tape: &mut [u64],
    output: &mut [u64],
) -> Ran
    ensures output_after { called result addresses.new numbers.new moments.new tape.new output.new
        ≡ plain_words words.now 1
        (snapshot machine addresses.old numbers.old moments.old
        tape.old output.old) }
    ensures extras_value { result.extras ≡ no_marks }
{
    run_words(words, 1, machine, addresses, numbers, moments, tape, output)
}

// Runs a program as text.
#[tactic(auto, unfolding(checking::specs::ModeCalls::mode_call, rules::specs::Calls::plain_text))]
pub fn run_text(
    text: &[u8],
    budget: u64,
    machine: Machine,
    addresses: &mut [u64],
    numbers: &mut [u64],
    moments: &mut [u64],
    tape: &mut [u64],
    output: &mut [u64],
) -> Ran
    ensures output_after { called result addresses.new numbers.new moments.new tape.new output.new
        ≡ plain_text text.now budget
        (snapshot machine addresses.old numbers.old moments.old
        tape.old output.old) }
    ensures extras_value { result.extras ≡ no_marks }
{
    calling::runs::run(
        MODE,
        Text { text, budget },
        machine,
        addresses,
        numbers,
        moments,
        &mut [],
        tape,
        output,
    )
}

// Runs a program as text with a budget line.
#[tactic(auto, unfolding(checking::specs::ModeCalls::mode_call, rules::specs::Calls::plain_budget_text))]
pub fn run_budget_text(
    text: &[u8],
    machine: Machine,
    addresses: &mut [u64],
    numbers: &mut [u64],
    moments: &mut [u64],
    tape: &mut [u64],
    output: &mut [u64],
) -> Ran
    ensures output_after { called result addresses.new numbers.new moments.new tape.new output.new
        ≡ plain_budget_text text.now
        (snapshot machine addresses.old numbers.old moments.old
        tape.old output.old) }
    ensures extras_value { result.extras ≡ no_marks }
{
    calling::runs::run(
        MODE,
        BudgetText { text },
        machine,
        addresses,
        numbers,
        moments,
        &mut [],
        tape,
        output,
    )
}

// What a run of a program of bare words is refused with at entry; else e3.
pub fn check_words(
    words: &[u64],
    machine: Machine,
    addresses: &[u64],
    numbers: &[u64],
    moments: &[u64],
    tape: &[u64],
    output: &[u64],
) -> Answer
    ensures { meaning result
        ≡ (plain_words words.now 0
        (snapshot machine addresses.now numbers.now moments.now tape.now output.now)
        ).answer }
{
    checking::check(
        Words { words, budget: 0 },
        &HandedIn {
            mode: MODE,
            machine,
            addresses,
            numbers,
            moments,
            marks: &[],
            tape,
            output,
        },
    )
}

// The same of a program as text.
#[tactic(auto, unfolding(checking::specs::ModeCalls::mode_call, rules::specs::Calls::plain_text))]
pub fn check_text(
    text: &[u8],
    machine: Machine,
    addresses: &[u64],
    numbers: &[u64],
    moments: &[u64],
    tape: &[u64],
    output: &[u64],
) -> Answer
    ensures { meaning result
        ≡ (plain_text text.now 0
        (snapshot machine addresses.now numbers.now moments.now tape.now output.now)
        ).answer }
{
    checking::check(
        Text { text, budget: 0 },
        &HandedIn {
            mode: MODE,
            machine,
            addresses,
            numbers,
            moments,
            marks: &[],
            tape,
            output,
        },
    )
}

// The same of a program as text with a budget line, whatever its budget.
#[tactic(auto, unfolding(checking::specs::ModeCalls::mode_call))]
pub fn check_budget_text(
    text: &[u8],
    machine: Machine,
    addresses: &[u64],
    numbers: &[u64],
    moments: &[u64],
    tape: &[u64],
    output: &[u64],
) -> Answer
    ensures { meaning result
        ≡ (plain_call (job_program (load_budget_text text.now)) 0
        (snapshot machine addresses.now numbers.now moments.now tape.now output.now)
        ).answer }
{
    checking::check(
        BudgetText { text },
        &HandedIn {
            mode: MODE,
            machine,
            addresses,
            numbers,
            moments,
            marks: &[],
            tape,
            output,
        },
    )
}
