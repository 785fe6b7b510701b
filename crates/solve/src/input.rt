// Standard input, read whole.
ghost use Rattle.std.specs.Prelude.{◌≡◌, ◌<◌, length, take, IfOk};
ghost use Rattle.std.specs.Io.{ReadsAtMost};
ghost use Rattle.std.specs.Io.KnownBytes.{Consumes, IsAtEnd};

use std::io;
use std::io::{IsTerminal, Read};

// Says to a person at a terminal what is waited for.
pub(crate) fn prompt<T: IsTerminal, E: Eprint>(input: &T, rt: &E) {
    if input.is_terminal() {
        let _ = eprintln!(rt;
            "solve waits for a budget line, then a line for each frame; Ctrl-D ends the input"
        );
    }
}

// Reads until the input ends or the buffer is full, and answers how many bytes stand at the buffer's start. A read that gives nothing is the
// end, and there is no further one: a terminal would ask for a second Ctrl-D. A loop of its own, since `read_exact` takes an input that is
// shorter for an error, and `read_to_end` fills a Vec, which takes a heap.
pub(crate) fn read_all<R: Read>(input: &mut R, buffer: &mut [u8]) -> io::Result<usize>
    ensures count { ReadsAtMost result buffer.new }
    ensures bytes { IfOk result (λ n. Consumes (R.remaining input.old) (R.remaining input.new) (take n buffer.new)) }
    ensures length_kept { length buffer.new ≡ length buffer.old }
    ensures whole { IfOk result (λ n. n < length buffer.new → IsAtEnd (R.remaining input.new)) }
{
    let mut at = 0;
    while at < buffer.len() {
        let more = input.read(&mut buffer[at..])?;
        if more == 0 {
            return Ok(at);
        }
        at += more;
    }
    Ok(at)
}
