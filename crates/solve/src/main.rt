// The program `solve`: reads a budget line and frames from standard input, runs the machine, and prints what came of it. All but reading,
// writing and the arguments is `executor::solve`. What went wrong is told on standard error; the exit status is always 0.
#![tactic(auto)]

ghost use Rattle.std.specs.Prelude.{OnOk, IfSome};
ghost use Rattle.std.specs.Io.KnownBytes.{Appends};
ghost use Rattle.rules.specs.Solve.{solve};

mod arguments;
mod failure;
mod help;
mod input;

use failure::Failure;
use std::io;
use std::io::{Read, Write};

// The lines have at most 69,703 characters (crate rules, SolveFits), so that they fit.
const LINES_SIZE: usize = 70_000;

fn main(rt: HostRuntime) {
    if let Err(failure) = run(&rt) {
        // There is no place left to tell of a message that cannot be written.
        let _ = eprintln!(rt; "solve: {failure}");
    }
}

fn run(rt: &HostRuntime) -> Result<(), Failure> {
    match arguments::count(rt) {
        0 => solve_input(rt),
        1 => arguments::follow(rt),
        _ => {
            let _ = arguments::refuse_many(&mut rt.stderr());
            Ok(())
        }
    }
}

fn solve_input(rt: &HostRuntime) -> Result<(), Failure> {
    let mut stdin = rt.stdin();
    input::prompt(&stdin, rt);
    answer(&mut stdin, &mut rt.stdout())
}

// Reads the input, and prints what comes of it. An input that fills the buffer is too long for a text, and is not read to its end. One that
// was read in part gets no answer.
fn answer<R: Read, W: Write>(input: &mut R, out: &mut W) -> Result<(), Failure>
    ensures { OnOk result (IfSome (R.remaining input.old)
        (λ xs. Appends (W.contents out.old) (W.contents out.new) (solve xs))) }
{
    let mut buffer = [0u8; executor::INPUT_SIZE];
    let n = input::read_all(input, &mut buffer).map_err(Failure::Input)?;
    print_answer(&buffer[..n], out).map_err(Failure::Output)
}

// Runs the machine on the input, and prints the lines that came of it.
fn print_answer<W: Write>(input: &[u8], out: &mut W) -> io::Result<()>
    ensures { OnOk result (Appends (W.contents out.old) (W.contents out.new) (solve input.now)) }
{
    let mut lines = [0u8; LINES_SIZE];
    let end = executor::solve(input, &mut lines).unwrap();
    out.write_all(&lines[..end])
}
