// Transcripts: cases in, what the library did with them out, in the format of conformance/FORMAT.md. A line that is not understood is
// repeated after `? `. The programs `cases`, `replay` and `vectors` are this on three inputs. Standard input is read, standard output
// written; the first read or write that fails ends it.
#![tactic(auto)]

mod input;
mod lines;
mod runs;
mod show;

use lines::Player;
use std::io;
use std::io::Input;

// Longer than any line.
const BUFFER_SIZE: usize = 65_536;

// Plays the standard input.
pub fn play_input<R: Input + Print>(rt: &R) -> io::Result<()> {
    let mut buffer = [0u8; BUFFER_SIZE];
    let mut player = Player::new(io::writer(rt));
    input::play(&mut rt.reader(), &mut buffer, &mut player)
}
