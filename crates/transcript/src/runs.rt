// The runs of a case: step after step, and again in one call.
use crate::lines::Fault;
use crate::show::show;
use case_calls::{Form, Run, call};
use case_fields::case::Case;
use case_fields::snapshot::Snapshot;
use rules::Answer;
use std::io;
use std::io::Write;

// Runs the case with the budget that the line gives.
pub(crate) fn play_case<W: Write>(
    run: Run,
    line: &[u8],
    case: &mut Case,
    out: &mut W,
) -> Result<(), Fault> {
    case.budget.read(line)?;
    case.complete();
    let mut shown = case.start;
    let form = form_of(case);
    match form {
        Form::Words(budget) => play_calls(run, Form::Step, budget, case, &mut shown, out)?,
        Form::Text(budget) => play_calls(run, Form::Text(1), budget, case, &mut shown, out)?,
        // The text has the budget: no step is made alone.
        _ => {}
    }
    out.write_all(b"run ")?;
    play_calls(run, form, 1, case, &mut shown, out)?;
    Ok(())
}

// The function that takes what the case gives.
fn form_of(case: &Case) -> Form {
    let Some(budget) = case.budget.given().first() else {
        return Form::BudgetText;
    };
    if case.words.count.is_some() {
        Form::Words(*budget)
    } else {
        Form::Text(*budget)
    }
}

// Calls from the start, then from what that call left, and so on while the program goes on, so many times at most, and shows what each
// call did.
fn play_calls<W: Write>(
    run: Run,
    form: Form,
    most: u64,
    case: &Case,
    shown: &mut Snapshot,
    out: &mut W,
) -> io::Result<()> {
    let mut snapshot = case.start;
    for _ in 0..most {
        let ran = call(run, form, case, &mut snapshot);
        show(ran, case, &snapshot, shown, out)?;
        if !matches!(ran.answer, Answer::Paused) {
            break;
        }
    }
    Ok(())
}
