// The arguments: `--help` alone, or none.
use crate::failure::Failure;
use crate::help::print_help;
use std::env::{Env, FillError};
use std::io;
use std::io::Write;

// An argument that is longer is refused without its text.
const ARGUMENT_SIZE: usize = 4096;

// How many arguments come after the program's own name: none, one or more, which counts as two.
pub(crate) fn count<E: Env>(env: &E) -> usize {
    if is_missing(1, env) {
        0
    } else if is_missing(2, env) {
        1
    } else {
        2
    }
}

fn is_missing<E: Env>(place: usize, env: &E) -> bool {
    matches!(env.arg(place, &mut []), Err(FillError::NotPresent))
}

// Does what the one argument asks for.
pub(crate) fn follow(rt: &HostRuntime) -> Result<(), Failure> {
    let mut buffer = [0u8; ARGUMENT_SIZE];
    let n = rt.arg(1, &mut buffer).unwrap_or(0);
    let argument = &buffer[..n];
    if argument == b"--help".as_slice() {
        return print_help(&mut rt.stdout()).map_err(Failure::Output);
    }
    let _ = refuse(argument, &mut rt.stderr());
    Ok(())
}

pub(crate) fn refuse_many<W: Write>(err: &mut W) -> io::Result<()> {
    err.write_all(b"solve: more than one argument")?;
    point_to_help(err)
}

fn refuse<W: Write>(argument: &[u8], err: &mut W) -> io::Result<()> {
    err.write_all(b"solve: unknown argument '")?;
    err.write_all(argument)?;
    err.write_all(b"'")?;
    point_to_help(err)
}

fn point_to_help<W: Write>(err: &mut W) -> io::Result<()> {
    err.write_all(b"\nsolve --help says what it reads and prints\n")
}
