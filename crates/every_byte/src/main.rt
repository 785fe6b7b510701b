// The program `every_byte`: each of the 256 bytes at each of the 16 places of three words. Each is read by `hexadecimal::word`, as a budget
// line and as a frame's second word. A line is printed of each that one of the three takes: the word that was read, and which of the two
// texts are accepted.
#![tactic(auto)]

ghost use Rattle.std.specs.Prelude.{◌<◌};

use std::io;
use std::io::Write;

const DIGITS: usize = 16;

// A budget line and END; JMP and its op1.
const BUDGET_TEXT: [u8; 34] = *b"................\n000000000000000b\n";

const FRAME_TEXT: [u8; 33] = *b"0000000000000805................\n";

fn main(rt: HostRuntime) -> io::Result<()> {
    let mut out = rt.stdout();
    for place in 0..DIGITS {
        try_bytes(*b"0123456789abcdef", place, &mut out)?;
        try_bytes(*b"9a9a9a9a9a9a9a9a", place, &mut out)?;
        try_bytes(*b"f00ff00ff00ff00f", place, &mut out)?;
    }
    Ok(())
}

// Puts every byte at a place of a word.
fn try_bytes<W: Write>(word: [u8; DIGITS], place: usize, out: &mut W) -> io::Result<()>
    requires { place < 16 }
{
    let mut tried = word;
    for byte in 0..=u8::MAX {
        tried[place] = byte;
        try_word(tried, out)?;
    }
    Ok(())
}

fn try_word<W: Write>(word: [u8; DIGITS], out: &mut W) -> io::Result<()> {
    let mut budget_text = BUDGET_TEXT;
    let mut frame_text = FRAME_TEXT;
    budget_text[..DIGITS].copy_from_slice(&word);
    frame_text[DIGITS..2 * DIGITS].copy_from_slice(&word);
    let in_budget = program_text::check_budget_text(&budget_text).is_ok();
    let in_frame = program_text::check_text(&frame_text).is_ok();
    show(hexadecimal::word(&word, 0), in_budget, in_frame, out)
}

fn show<W: Write>(
    read: Option<u64>,
    in_budget: bool,
    in_frame: bool,
    out: &mut W,
) -> io::Result<()> {
    if let Some(v) = read {
        show_word(v, out)?;
    } else if !in_budget && !in_frame {
        return Ok(());
    }
    if in_budget {
        out.write_all(b" budget")?;
    }
    if in_frame {
        out.write_all(b" frame")?;
    }
    out.write_all(b"\n")
}

// By the library's own digits, so that they are tried too (docs/FAULTS.md).
fn show_word<W: Write>(v: u64, out: &mut W) -> io::Result<()> {
    let mut digits = [0u8; DIGITS];
    hexadecimal::put_16(0, v, &mut digits);
    out.write_all(&digits)
}
