// One call that a case asks for: it starts from a snapshot, and what it leaves is put there.
#![tactic(auto)]

use case_fields::case::{Case, Lent};
use case_fields::snapshot::Snapshot;
use executor::{guarded, plain};
use machine::GuardedMachine;
use rules::Ran;

// Which run a case asks for.
#[derive(Clone, Copy, PartialEq, Eq)]
pub enum Run {
    Plain,
    Guarded,
    Traced,
}

// The library's functions that a case can ask for, each plain, guarded and traced; some take a budget. `Step` steps a record where it is
// kept; a traced step is a run with a budget of 1.
#[derive(Clone, Copy)]
pub enum Form {
    Step,
    Words(u64),
    Text(u64),
    BudgetText,
}

// Calls from a snapshot, and puts there what the call leaves. Only a guarded call is handed the marks of the registers; the others leave
// them.
pub fn call(run: Run, form: Form, case: &Case, snapshot: &mut Snapshot) -> Ran {
    let machine = snapshot.machine();
    let extras = snapshot.extras();
    let words = case.words.given();
    let text = case.text.bytes();
    let Lent {
        addresses,
        numbers,
        moments,
        marks,
        tape,
        output,
        sheet,
    } = case.lend(snapshot);
    // One row for each function. As methods of a trait with an impl for each run, or as closures, the rows would be as many, each with a
    // head of its own.
    let ran = match (run, form) {
        (Run::Plain, Form::Step) => machine::lend_and_step(
            words, machine, addresses, numbers, moments, tape, output,
        ),
        (Run::Plain, Form::Words(budget)) => plain::run_words(
            words, budget, machine, addresses, numbers, moments, tape, output,
        ),
        (Run::Plain, Form::Text(budget)) => plain::run_text(
            text, budget, machine, addresses, numbers, moments, tape, output,
        ),
        (Run::Plain, Form::BudgetText) => {
            plain::run_budget_text(text, machine, addresses, numbers, moments, tape, output)
        }
        (Run::Guarded, Form::Step) => machine::lend_and_step_guarded(
            words,
            GuardedMachine { machine, extras },
            addresses,
            numbers,
            moments,
            marks,
            tape,
            output,
        ),
        (Run::Guarded, Form::Words(budget)) => guarded::run_words(
            words, budget, machine, extras, addresses, numbers, moments, marks, tape, output,
        ),
        (Run::Guarded, Form::Text(budget)) => guarded::run_text(
            text, budget, machine, extras, addresses, numbers, moments, marks, tape, output,
        ),
        (Run::Guarded, Form::BudgetText) => guarded::run_budget_text(
            text, machine, extras, addresses, numbers, moments, marks, tape, output,
        ),
        (Run::Traced, Form::Step) => traced::run_words(
            words, 1, machine, addresses, numbers, moments, tape, output, sheet,
        ),
        (Run::Traced, Form::Words(budget)) => traced::run_words(
            words, budget, machine, addresses, numbers, moments, tape, output, sheet,
        ),
        (Run::Traced, Form::Text(budget)) => traced::run_text(
            text, budget, machine, addresses, numbers, moments, tape, output, sheet,
        ),
        (Run::Traced, Form::BudgetText) => traced::run_budget_text(
            text, machine, addresses, numbers, moments, tape, output, sheet,
        ),
    };
    snapshot.put_machine(ran.machine);
    if run == Run::Guarded {
        snapshot.put_extras(ran.extras);
    }
    ran
}
