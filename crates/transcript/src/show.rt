// What is written of a call.
use case_fields::case::Case;
use case_fields::parts::Part;
use case_fields::snapshot::Snapshot;
use rules::{Answer, Ran};
use std::io;
use std::io::Write;
use traced::LINE_BYTES;

// More than the longest line of an answer.
const LINE_SIZE: usize = 128;

// The answer's line, the callee, and what changed since it was last shown.
pub(crate) fn show<W: Write>(
    ran: Ran,
    case: &Case,
    snapshot: &Snapshot,
    shown: &mut Snapshot,
    out: &mut W,
) -> io::Result<()> {
    show_answer(ran, out)?;
    show_calling(ran.answer, out)?;
    note_clock(ran.steps, snapshot, shown);
    for ((name, part), (_, last)) in snapshot.named().into_iter().zip(shown.named()) {
        show_changes(name, part, last, out)?;
    }
    let length = case.sheet_length();
    show_pieces(&snapshot.sheet[..length], &shown.sheet[..length], out)?;
    *shown = *snapshot;
    Ok(())
}

// The line that `solve` prints.
fn show_answer<W: Write>(ran: Ran, out: &mut W) -> io::Result<()> {
    let mut line = [0u8; LINE_SIZE];
    match report::print(ran.answer, ran.steps, ran.machine, &[], &mut line) {
        Some(end) => out.write_all(line.get(..end).unwrap_or(&line)),
        None => Ok(()),
    }
}

// Where a step was done, pc and clk, the first two numbers of the state, are in the answer's line, and count as shown.
fn note_clock(steps: u64, snapshot: &Snapshot, shown: &mut Snapshot) {
    if 0 < steps {
        shown.state.numbers[..2].copy_from_slice(&snapshot.state.numbers[..2]);
    }
}

fn show_calling<W: Write>(answer: Answer, out: &mut W) -> io::Result<()> {
    match answer {
        Answer::Calling(a, b, c, d) | Answer::DelegateCalling(a, b, c, d) => {
            writeln!(out, "callee {a:x} {b:x} {c:x} {d:x}")
        }
        _ => Ok(()),
    }
}

// The places of a part whose numbers are others than were last shown, behind its name.
fn show_changes<W: Write>(name: &str, part: &Part, last: &Part, out: &mut W) -> io::Result<()> {
    if part.numbers == last.numbers {
        return Ok(());
    }
    write!(out, "{name}")?;
    for (place, (now, then)) in part.numbers.iter().zip(&last.numbers).enumerate() {
        if now != then {
            write!(out, " {place:x}={now:x}")?;
        }
    }
    out.write_all(b"\n")
}

// The pieces of the sheet that are not as they were last shown; the last piece may be shorter.
fn show_pieces<W: Write>(sheet: &[u8], last: &[u8], out: &mut W) -> io::Result<()> {
    for (piece, (now, then)) in sheet
        .chunks(LINE_BYTES)
        .zip(last.chunks(LINE_BYTES))
        .enumerate()
    {
        if now != then {
            write!(out, "sheet {piece:x} ")?;
            print_line(now, out)?;
        }
    }
    Ok(())
}

// A text as a line, whether its line feed is in it or not.
fn print_line<W: Write>(text: &[u8], out: &mut W) -> io::Result<()> {
    out.write_all(text)?;
    if !text.ends_with(b"\n") {
        out.write_all(b"\n")?;
    }
    Ok(())
}
