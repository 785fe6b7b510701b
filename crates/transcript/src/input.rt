// The input, read in pieces into a buffer that is longer than any line.
ghost use Rattle.std.specs.Prelude.{◌≡◌, ◌≤◌, length, IfOk};

use crate::lines::Player;
use std::io;
use std::io::{Read, Write};

// Nothing says that an input ends, so that the number of pieces has a limit.
const PIECE_LIMIT: u64 = 10_000;

// Plays the whole input. What was read of a line that goes on stands at the buffer's start.
pub(crate) fn play<R: Read, W: Write>(
    input: &mut R,
    buffer: &mut [u8],
    player: &mut Player<W>,
) -> io::Result<()> {
    let mut rest = 0;
    for _ in 0..PIECE_LIMIT {
        let end = read_after(input, rest, buffer)?;
        if end == rest {
            return player.play(&buffer[..end]);
        }
        let played = play_lines(&buffer[..end], player)?;
        buffer.copy_within(played..end, 0);
        rest = end - played;
    }
    Ok(())
}

// Reads into the buffer from a place on until it is full or the input ends, and answers the place after what was read.
fn read_after<R: Read>(input: &mut R, at: usize, buffer: &mut [u8]) -> io::Result<usize>
    requires { at ≤ length buffer.old }
    ensures read { IfOk result (λ end. (at ≤ end) × (end ≤ length buffer.new)) }
    ensures length_kept { length buffer.new ≡ length buffer.old }
{
    let mut end = at;
    // No iterator: a read gives as many bytes as it likes. `read_exact` fails where the input ends, and `read_to_end` takes a Vec.
    while end < buffer.len() {
        let more = input.read(&mut buffer[end..])?;
        if more == 0 {
            break;
        }
        end += more;
    }
    Ok(end)
}

// Plays each line that ends, and answers the place after them.
fn play_lines<W: Write>(bytes: &[u8], player: &mut Player<W>) -> io::Result<usize>
    ensures { IfOk result (λ after. after ≤ length bytes.now) }
{
    let Some(last) = bytes.iter().rposition(|byte| *byte == b'\n') else {
        return Ok(0);
    };
    for line in bytes[..last].split(|byte| *byte == b'\n') {
        player.play(line)?;
    }
    Ok(last + 1)
}
